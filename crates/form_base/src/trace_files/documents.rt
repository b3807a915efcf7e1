//! Traces as documents that are loaded from files.

ghost use Rattle.std.specs.Prelude.{◌≡◌};
ghost use Rattle.scram_types.specs.declared.limits.TheConstants.{MAX_TRACE_BYTES};
ghost use Rattle.form_base.specs.Refusals.{answer_of};
ghost use Rattle.form_base.specs.declared.status.TheConstants.{BROKEN_TRACE};
ghost use Rattle.form_base.specs.trace_files.Traces.{BreaksTrace, SaysTrace, long_trace};
ghost use Rattle.form_base.specs.trace_files.Lines.{broken_trace_line};

use crate::loads::Document;
use crate::refusals::{Refusal, Refused};
use crate::trace_files::lines::make_broken_trace_line;
use scram_types::limits::MAX_TRACE_BYTES;
use scram_types::{Flown, Spec};
use std::alloc::Global;
use trace_text::{TraceError, TraceFault, read_trace, rule};

/// The kind of document that holds a trace of missions of a specification.
#[derive(Clone, Copy)]
pub struct Trace<'a> {
    pub spec: &'a Spec,
}

fn refuse(fault: TraceFault) -> Refusal
    ensures { answer_of result ≡ (BROKEN_TRACE, broken_trace_line fault) }
{
    Refusal::new(Refused::Trace, make_broken_trace_line(fault))
}

impl Document<Flown> for Trace<'_> {
    ghost limit = { λ _. MAX_TRACE_BYTES };

    ghost long = { λ _. long_trace };

    ghost Says = { λ trace. SaysTrace trace.spec.now };

    ghost Breaks = { λ trace. BreaksTrace trace.spec.now };

    fn limit(&self) -> usize {
        MAX_TRACE_BYTES
    }

    fn read(&self, alloc: Global, bytes: &[u8]) -> Result<Flown, Refusal> {
        match read_trace(alloc, bytes, self.spec) {
            Ok(flown) => Ok(flown),
            Err(TraceError::Fault(fault)) => Err(refuse(fault)),
            Err(TraceError::NoMemory) => Err(Refusal::out_of_memory()),
        }
    }

    fn too_long(&self) -> Refusal {
        refuse(TraceFault {
            line: 0,
            rule: rule::WRONG_END,
        })
    }
}
