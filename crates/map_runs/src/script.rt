//! The parts of a script, and what their lines work on.
use crate::lines::line_in;
use crate::maps::Maps;
use crate::reads::{self, Inputs};
use script_bytes::Answer;
use std::alloc::{AllocError, Global};

/// Whose commands lines are.
#[derive(Clone, Copy)]
enum Part {
    Maps,
    Reads,
}

/// What the lines of each part work on, and the part that lines are of.
#[derive(Drop)]
pub(crate) struct Script {
    part: Part,
    maps: Maps,
    inputs: Inputs,
}

impl Script {
    pub(crate) fn new(alloc: Global) -> Result<Script, AllocError> {
        Ok(Script {
            part: Part::Maps,
            maps: Maps::new(alloc)?,
            inputs: Inputs::new(alloc),
        })
    }

    /// Goes on with the part of this name. Returns whether there is one.
    pub(crate) fn begin(&mut self, name: &str) -> bool {
        self.part = match name {
            "maps" => Part::Maps,
            "reads" => Part::Reads,
            _ => return false,
        };
        true
    }

    /// Answers a line. A remark is repeated.
    pub(crate) fn answer(&mut self, answer: &mut Answer, text: &str) {
        if text.is_empty() || text.starts_with('#') {
            return answer.say(text);
        }
        let line = line_in(text);
        match self.part {
            Part::Maps => self.maps.answer(answer, &line),
            Part::Reads => reads::answer(answer, &mut self.inputs, &line),
        }
    }
}
