//! The verdict on an archive.

ghost use Rattle.std.specs.Prelude.{◌≡◌, Some};
ghost use Rattle.archive_commands.specs.Verdicts.{line_of, status_of, verdict_of};

use pm_archive::ArchiveFault;
use pm_verify::Report;
use std::fmt;

/// The result of a verification, as it is printed.
#[derive(Clone, Copy)]
pub enum Verdict {
    /// The archive is sound.
    Sound(Report),
    /// The archive has a fault.
    Faulty(ArchiveFault),
    /// The archive couldn't be verified: a read failed, or memory ran out.
    Unjudged(ArchiveFault),
}

impl Verdict {
    /// The verdict for the result of a verification.
    pub fn of(judged: Result<Report, ArchiveFault>) -> Verdict
        ensures { result ≡ verdict_of judged }
    {
        match judged {
            Ok(report) => Verdict::Sound(report),
            Err(fault @ (ArchiveFault::Read | ArchiveFault::Memory)) => Verdict::Unjudged(fault),
            Err(fault) => Verdict::Faulty(fault),
        }
    }

    /// The exit status of the program that prints it: 0 if the archive is sound, otherwise 1.
    pub fn status(self) -> u8
        ensures { result ≡ status_of self }
    {
        match self {
            Verdict::Sound(_) => 0,
            Verdict::Faulty(_) | Verdict::Unjudged(_) => 1,
        }
    }
}

impl fmt::Display for Verdict {
    ghost output = { λ verdict. Some (line_of verdict) };

    fn fmt<W: fmt::Write>(&self, f: &mut fmt::Formatter<W>) -> fmt::Result {
        match self {
            Verdict::Sound(report) => write!(f, "ok: {report}"),
            Verdict::Faulty(fault) => write!(f, "{fault}"),
            Verdict::Unjudged(fault) => write!(f, "{fault}"),
        }
    }
}
