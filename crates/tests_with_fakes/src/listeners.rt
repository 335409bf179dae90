//! Peers that connect to a listener on this machine, and the lines of the log. Peers that act at times are lines of the script of `service_runs`.

mod lines;
mod peers;
