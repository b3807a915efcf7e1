//! The processors, applications, configurations and factors of a document. The other parts of the document refer to
//! them by name.

use crate::names::ByName;
use crate::numbered::Numbered;
use scram_types::{AppSpec, Conf, Factor, Proc};
use std::marker::Model;

/// The processors, applications, configurations and factors of a document.
#[derive(Drop)]
pub struct Vocabulary {
    pub procs: Numbered<Proc, ByName>,
    pub apps: Numbered<AppSpec, ByName>,
    pub confs: Numbered<Conf, ByName>,
    pub factors: Numbered<Factor, ByName>,
}

impl Model for Vocabulary {
    ghost use Rattle.spec_reading.specs.Vocabulary.{Names};
    ghost use Rattle.spec_reading.specs.Vocabulary.{AreNames};

    ghost Value = { Names };

    ghost view = { λ n. record {
      procs = n.procs;
      apps = n.apps;
      confs = n.confs;
      factors = n.factors;
    } };

    ghost invariant = { λ n. AreNames n.procs n.apps n.confs n.factors };
}
