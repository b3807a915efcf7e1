//! Tests of the ranks of applications, and of a cycle of needs.

ghost use Rattle.std.specs.Prelude.{◌≡◌, IfOk};

use dep_order::rank;
use scram_types::{AppId, AppSpec, KindId, List, Name};
use std::alloc::Global;
use std::rt::HostRuntime;
use std::test::Fail;

fn app(alloc: Global, name: &str, needs: &[AppId]) -> Result<AppSpec, Fail>
    ensures { IfOk result (λ app. app.needs ≡ needs.now) }
{
    let name = Name::of(name).ok_or("not a name")?;
    let needs = List::of(Vec::from_slice(alloc, needs)?);
    let modes = List::of(Vec::from_slice(alloc, &[])?);
    Ok(AppSpec {
        name,
        kind: KindId(2),
        needs,
        modes,
        rank: 0,
    })
}

#[test]
fn two_that_need_each_other_are_a_cycle(rt: HostRuntime) -> Result<(), Fail> {
    let a = app(rt.alloc(), "a", &[AppId(1)])?;
    let b = app(rt.alloc(), "b", &[AppId(0)])?;
    let cycle = rank(&[a, b]).err().ok_or("no cycle")?;
    assert_eq!(rt; cycle.0.as_slice(), [AppId(0), AppId(1)].as_slice());
    Ok(())
}

#[test]
fn ranks_rise_from_what_is_needed(rt: HostRuntime) -> Result<(), Fail> {
    let a = app(rt.alloc(), "a", &[AppId(1)])?;
    let b = app(rt.alloc(), "b", &[AppId(2)])?;
    let c = app(rt.alloc(), "c", &[])?;
    let d = app(rt.alloc(), "d", &[AppId(2)])?;
    let ranks = rank(&[a, b, c, d]).ok().ok_or("no ranks")?;
    assert_eq!(rt; ranks.as_slice(), [2, 1, 0, 1].as_slice());
    Ok(())
}
