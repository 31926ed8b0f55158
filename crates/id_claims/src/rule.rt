//! The rule of the claims' table, and what each step on it tells. These types are for the proofs alone.
use crate::ids::Ids;
use crate::knowledge::Knowledge;
use atomic_table::{Join, Play, Split, TableRule};
use std::snapshot::Snapshot;

/// The rule. The table is told the ids that it began with.
pub(crate) struct Law;

impl TableRule<Ids, Knowledge, Snapshot<Ids>> for Law {
    ghost use Rattle.id_claims.specs.Rules.{Keeps, first_knowledge};

    ghost holds = { λ listed. Keeps listed.value };

    ghost first = { λ listed. first_knowledge listed.value };
}

pub(crate) struct Take;

impl Play<Ids, Knowledge> for Take {
    ghost use Rattle.id_claims.specs.Steps.{Takes};

    ghost then = { Takes };
}

pub(crate) struct GiveBack;

impl Play<Ids, Knowledge> for GiveBack {
    ghost use Rattle.id_claims.specs.Steps.{GivesBack};

    ghost then = { GivesBack };
}

pub(crate) struct Look;

impl Play<Ids, Knowledge> for Look {
    ghost use Rattle.id_claims.specs.Steps.{Looks};

    ghost then = { Looks };
}

pub(crate) struct Cut;

impl Split<Knowledge> for Cut {
    ghost use Rattle.id_claims.specs.Steps.{cut_left, cut_right};

    ghost left = { cut_left };

    ghost right = { cut_right };
}

pub(crate) struct Glue;

impl Join<Knowledge> for Glue {
    ghost use Rattle.id_claims.specs.Steps.{gone, joined};

    ghost both = { joined };

    ghost spent = { gone };
}
