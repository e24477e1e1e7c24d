use crate::walk::Answer;
use split_paths::Path;
use work_pool::{End, Taker};

/// Compares each pair with the one that stands at its place in a walk on one thread.
#[derive(Drop)]
pub(crate) struct Check {
    pub(crate) answer: Answer,
    /// How many pairs were taken.
    pub(crate) taken: usize,
}

/// A pair isn't the one that stands at its place.
#[derive(Debug, Drop)]
pub(crate) struct Differs;

impl Check {
    /// Whether nothing is left to be taken, and the answer ends in this way.
    pub(crate) fn is_whole(&self, end: &End) -> bool {
        let ends = match (end, &self.answer.stop) {
            (End::Finished, None) => true,
            (End::Stopped(path, _), Some(stop)) => *path == *stop,
            (End::Finished, Some(_)) | (End::Stopped(_, _), None) => false,
        };
        ends && self.taken == self.answer.pairs.len()
    }
}

impl Taker<u32> for Check {
    type Fault = Differs;

    ghost takes = { λ before path leaf after. Unit {0} };

    ghost fails = { λ before path leaf fault after. Unit {0} };

    ghost may = { λ taker leaf. Unit {0} };

    fn take(&mut self, path: Path, leaf: u32) -> Result<(), Differs> {
        let Some((at, number)) = self.answer.pairs.get(self.taken) else {
            return Err(Differs);
        };
        if *at != path || *number != leaf {
            return Err(Differs);
        }
        self.taken = self.taken.saturating_add(1);
        Ok(())
    }
}
