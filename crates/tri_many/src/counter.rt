use crate::output::Fault;
use certificates::Leaf;
use split_paths::Path;
use work_pool::Taker;

/// Counts the chains that it takes, and their polynomials.
#[derive(Debug, Drop)]
pub struct Counter {
    pub chains: u64,
    pub polys: u64,
}

impl Taker<Leaf> for Counter {
    type Fault = Fault;

    ghost use Rattle.std.specs.Prelude.{◌≡◌, ◌+◌, length};
    ghost use Rattle.tri_many.specs.declared.output.Fault.TheVariants.{Memory};

    ghost takes = { λ before path leaf after. (after.chains ≡ before.chains + 1)
        × (after.polys ≡ before.polys + length leaf.chain) };

    ghost fails = { λ before path leaf fault after. fault ≡ Memory };

    ghost may = { λ counter leaf. Unit {0} };

    fn take(&mut self, _path: Path, leaf: Leaf) -> Result<(), Fault> {
        let count = leaf.chain.polys().count() as u64;
        let (Some(chains), Some(polys)) = (
            self.chains.checked_add(1),
            self.polys.checked_add(count),
        ) else {
            return Err(Fault::Memory);
        };
        self.chains = chains;
        self.polys = polys;
        Ok(())
    }
}
