//! The numbers by which applications, processors, configurations, factors, kinds and modes are known.

/// An application, as an index into the specification's applications. The default is the first application.
#[derive(Clone, Copy, Debug, Default, PartialEq, Eq)]
pub struct AppId(pub u8);

/// A processor, as an index into the specification's processors.
#[derive(Clone, Copy, Debug, PartialEq, Eq)]
pub struct ProcId(pub u8);

/// A configuration, as an index into the specification's configurations.
#[derive(Clone, Copy, Debug, PartialEq, Eq)]
pub struct ConfId(pub u8);

/// An environment factor, as an index into the specification's factors.
#[derive(Clone, Copy, Debug, PartialEq, Eq)]
pub struct FactorId(pub u8);

/// A kind of application: 0 autopilot, 1 flight control, 2 power monitor, 3 navigator, 4 data link, 5 task.
#[derive(Clone, Copy, Debug, PartialEq, Eq)]
pub struct KindId(pub u8);

/// A mode of an application's kind, counted from 1. Mode 0 is off.
#[derive(Clone, Copy, Debug, PartialEq, Eq)]
pub struct Mode(pub u8);
