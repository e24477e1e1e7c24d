use crate::certificate::Certificates;
use chains::Chain;
use std::marker::Model;

/// What a finished branch of the tree of cases leaves: a triangular set, with certificates of those of
/// its initials that aren't constant.
#[derive(Debug, Drop)]
pub struct Leaf {
    pub chain: Chain,
    pub certificates: Certificates,
}

impl Model for Leaf {
    ghost use Rattle.finish_rules.specs.Leaves.{Leaf};

    ghost Value = { Leaf };

    ghost view = { λ leaf. record { chain = leaf.chain; certificates = leaf.certificates } };
}
