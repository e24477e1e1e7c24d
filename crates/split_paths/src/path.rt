ghost use Rattle.std.specs.Prelude.{◌≡◌, ◌≤◌, ℕ, List, [], ◌∷◌, ◌++◌, IfOk, IsTrue, ◌↔◌, string_bytes};
ghost use Rattle.std.specs.Cmp.Lexicographic.{slice_cmp};
ghost use Rattle.std.specs.Ordering.{nat_cmp};
ghost use Rattle.split_paths.specs.Paths.{path_text};

use std::alloc::{AllocError, Global};
use std::cmp::Ordering;
use std::fmt::Write;
use std::marker::Model;

/// The place of a task in the tree: at each split on the way from the root, the number of the child.
#[derive(Clone, Debug, Drop)]
pub struct Path {
    numbers: Vec<u32>,
}

impl Model for Path {
    ghost Value = { List ℕ };

    ghost view = { λ path. path.numbers.items };
}

impl Path {
    /// The path of the root, which is empty.
    pub fn root(alloc: Global) -> Path
        ensures { result ≡ [] }
    {
        Path {
            numbers: Vec::new(alloc),
        }
    }

    /// The path of the child with this number; children are counted from 1.
    pub fn child(&self, i: u32) -> Result<Path, AllocError>
        requires { 1 ≤ i }
        ensures { IfOk result (λ child. child ≡ self.now ++ i ∷ []) }
    {
        let mut numbers = Vec::with_capacity(*self.numbers.allocator(), self.numbers.len())?;
        numbers.extend_from_slice(&self.numbers)?;
        numbers.push(i)?;
        Ok(Path { numbers })
    }

    pub fn items(&self) -> &[u32]
        ensures { result.now ≡ self.now }
    {
        &self.numbers
    }

    /// The text of a report: `-` for the root, and else the numbers joined by `.`.
    pub fn text(&self) -> Result<String, AllocError>
        ensures { IfOk result (λ text. string_bytes text ≡ path_text self.now) }
    {
        let alloc = *self.numbers.allocator();
        let Some((first, others)) = self.numbers.split_first() else {
            return String::from_str(alloc, "-");
        };
        let mut text = format!(in alloc; "{first}")?;
        for number in others {
            write!(text, ".{number}")?;
        }
        Ok(text)
    }
}

impl PartialEq for Path {
    ghost use Rattle.std.specs.Prelude.{◌==◌};
    ghost use Rattle.std.proofs.Common.{rules};
    ghost use Rattle.std.specs.Cmp.Rules.{comparing};
    ghost use Rattle.std.specs.Cmp.Lexicographic.{pointwise};

    ghost eq = { pointwise ◌==◌ };

    ghost laws = { Prim.search (comparing, rules) };

    fn eq(&self, other: &Path) -> bool {
        self.numbers == other.numbers
    }
}

impl Eq for Path {
    ghost use Rattle.std.proofs.Common.{rules};
    ghost use Rattle.std.specs.Cmp.Rules.{comparing};

    ghost laws = { Prim.search (comparing, rules) };
}

impl Ord for Path {
    ghost use Rattle.std.specs.Cmp.Lexicographic.{slice_cmp};
    ghost use Rattle.std.specs.Ordering.{nat_cmp};
    ghost use Rattle.std.proofs.Common.{rules};
    ghost use Rattle.std.specs.Cmp.Rules.{comparing};

    ghost cmp = { slice_cmp nat_cmp };

    ghost total = { Prim.search (comparing, rules) };

    ghost matches_partial_cmp = { Prim.search (comparing, rules) };

    ghost matches_eq = { Prim.search (comparing, rules) };

    fn cmp(&self, other: &Path) -> Ordering {
        self.numbers.cmp(&other.numbers)
    }
}

impl PartialOrd for Path {
    ghost use Rattle.std.specs.Cmp.Lexicographic.{slice_cmp};
    ghost use Rattle.std.specs.Ordering.{nat_cmp, as_partial_cmp};
    ghost use Rattle.std.specs.Cmp.{partial_order_from_own_ties};
    ghost use Rattle.std.proofs.Common.{rules};
    ghost use Rattle.std.specs.Cmp.Rules.{comparing};

    ghost partial_cmp = { as_partial_cmp (slice_cmp nat_cmp) };

    ghost laws = { partial_order_from_own_ties
        (Prim.search (comparing, rules))
        (Prim.search (comparing, rules)) };

    fn partial_cmp(&self, other: &Path) -> Option<Ordering> {
        Some(self.cmp(other))
    }
}

#[cfg(test)]
mod tests {
    use super::*;
    use std::test::Fail;

    #[test]
    fn a_path_is_written_as_its_numbers(rt: HostRuntime) -> Result<(), Fail> {
        let root = Path::root(rt.alloc());
        assert_eq!(rt; root.text()?.as_str(), "-");
        let first = root.child(1)?;
        assert_eq!(rt; first.text()?.as_str(), "1");
        let second = first.child(2)?;
        assert_eq!(rt; second.text()?.as_str(), "1.2");
        assert_eq!(rt;
            second.child(4294967295)?.text()?.as_str(),
            "1.2.4294967295"
        );
        assert_eq!(rt; second.items(), [1, 2].as_slice());
        Ok(())
    }

    #[test]
    fn paths_stand_in_lexicographic_order(rt: HostRuntime) -> Result<(), Fail> {
        let root = Path::root(rt.alloc());
        let first = root.child(1)?;
        let below = first.child(9)?;
        let second = root.child(2)?;
        assert!(rt; root < first);
        assert!(rt; first < below);
        assert!(rt; below < second);
        assert!(rt; second == root.child(2)?);
        assert!(rt; below.clone()? == below);
        Ok(())
    }
}
