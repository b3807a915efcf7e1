//! The canonical texts of the specifications: compact JSON, in which the members of an object are sorted by their
//! bytes.

ghost use Rattle.std.specs.Prelude.{◌≡◌};
ghost use Rattle.mission_gen.specs.Specifications.{generated_text, uav_text};

/// The text of the specification of an aircraft with two alternators and two computers. The factors that are passed
/// to the macro follow the alternators.
macro_rules! aircraft {
    ($($further:literal),*) => {
        concat!(
            r#"{"apps":[{"kind":"autopilot","#,
            r#""modes":[{"halt":1,"init":1,"load":50,"mode":"navigate","prepare":1},"#,
            r#"{"halt":1,"init":1,"load":30,"mode":"hold","prepare":1}],"#,
            r#""name":"autopilot","#,
            r#""needs":["flight_control"]},{"kind":"flight_control","#,
            r#""modes":[{"halt":1,"init":1,"load":50,"mode":"augmented","prepare":1},"#,
            r#"{"halt":1,"init":1,"load":30,"mode":"direct","prepare":1}],"#,
            r#""name":"flight_control","#,
            r#""needs":[]},{"kind":"power_monitor","#,
            r#""modes":[{"halt":1,"init":1,"load":40,"mode":"normal","prepare":1},"#,
            r#"{"halt":1,"init":1,"load":20,"mode":"saver","prepare":1},"#,
            r#"{"halt":1,"init":1,"load":10,"mode":"essential","prepare":1}],"#,
            r#""name":"power_monitor","#,
            r#""needs":[]}],"#,
            r#""assumption":{"changes":1,"halts":1,"window":40},"#,
            r#""bounds":[{"frames":12,"from":"full","to":"full"},"#,
            r#"{"frames":12,"from":"full","to":"reduced_a"},"#,
            r#"{"frames":12,"from":"full","to":"reduced_b"},"#,
            r#"{"frames":11,"from":"full","to":"minimal_a"},"#,
            r#"{"frames":11,"from":"full","to":"minimal_b"},"#,
            r#"{"frames":12,"from":"reduced_a","to":"full"},"#,
            r#"{"frames":12,"from":"reduced_a","to":"reduced_a"},"#,
            r#"{"frames":12,"from":"reduced_a","to":"reduced_b"},"#,
            r#"{"frames":11,"from":"reduced_a","to":"minimal_a"},"#,
            r#"{"frames":11,"from":"reduced_a","to":"minimal_b"},"#,
            r#"{"frames":12,"from":"reduced_b","to":"full"},"#,
            r#"{"frames":12,"from":"reduced_b","to":"reduced_a"},"#,
            r#"{"frames":12,"from":"reduced_b","to":"reduced_b"},"#,
            r#"{"frames":11,"from":"reduced_b","to":"minimal_a"},"#,
            r#"{"frames":11,"from":"reduced_b","to":"minimal_b"},"#,
            r#"{"frames":11,"from":"minimal_a","to":"full"},"#,
            r#"{"frames":11,"from":"minimal_a","to":"reduced_a"},"#,
            r#"{"frames":11,"from":"minimal_a","to":"reduced_b"},"#,
            r#"{"frames":10,"from":"minimal_a","to":"minimal_a"},"#,
            r#"{"frames":10,"from":"minimal_a","to":"minimal_b"},"#,
            r#"{"frames":11,"from":"minimal_b","to":"full"},"#,
            r#"{"frames":11,"from":"minimal_b","to":"reduced_a"},"#,
            r#"{"frames":11,"from":"minimal_b","to":"reduced_b"},"#,
            r#"{"frames":10,"from":"minimal_b","to":"minimal_a"},"#,
            r#"{"frames":10,"from":"minimal_b","to":"minimal_b"}],"#,
            r#""configurations":[{"apps":[{"app":"autopilot","mode":"navigate","on":"p0"},"#,
            r#"{"app":"flight_control","mode":"augmented","on":"p1"},"#,
            r#"{"app":"power_monitor","mode":"normal","on":"p0"}],"#,
            r#""name":"full"},{"apps":[{"app":"autopilot","mode":"hold","on":"p0"},"#,
            r#"{"app":"flight_control","mode":"augmented","on":"p0"},"#,
            r#"{"app":"power_monitor","mode":"saver","on":"p0"}],"#,
            r#""name":"reduced_a"},{"apps":[{"app":"autopilot","mode":"hold","on":"p1"},"#,
            r#"{"app":"flight_control","mode":"augmented","on":"p1"},"#,
            r#"{"app":"power_monitor","mode":"saver","on":"p1"}],"#,
            r#""name":"reduced_b"},{"apps":[{"app":"flight_control","mode":"direct","on":"p0"},"#,
            r#"{"app":"power_monitor","mode":"essential","on":"p0"}],"#,
            r#""name":"minimal_a"},{"apps":[{"app":"flight_control","mode":"direct","on":"p1"},"#,
            r#"{"app":"power_monitor","mode":"essential","on":"p1"}],"#,
            r#""name":"minimal_b"}],"#,
            r#""factors":[{"name":"alternator1","values":["ok","failed"]},"#,
            r#"{"name":"alternator2","values":["ok","failed"]}"#,
            $($further,)*
            r#"],"#,
            r#""goal":{"altitude":5000,"heading":900},"#,
            r#""invariants":[{"app":"flight_control","#,
            r#""from":"*","#,
            r#""greatest":200,"#,
            r#""least":-200,"#,
            r#""variable":"elevator"},"#,
            r#"{"app":"power_monitor","from":"*","greatest":10000,"least":0,"variable":"charge"},"#,
            r#"{"app":"autopilot","from":"*","greatest":150,"least":-150,"variable":"roll"}],"#,
            r#""preconditions":[{"app":"flight_control","#,
            r#""configuration":"full","#,
            r#""greatest":50,"#,
            r#""least":-50,"#,
            r#""variable":"elevator"},{"app":"flight_control","#,
            r#""configuration":"reduced_a","#,
            r#""greatest":50,"#,
            r#""least":-50,"#,
            r#""variable":"elevator"},{"app":"flight_control","#,
            r#""configuration":"reduced_b","#,
            r#""greatest":50,"#,
            r#""least":-50,"#,
            r#""variable":"elevator"}],"#,
            r#""processors":[{"capacity":100,"name":"p0"},{"capacity":100,"name":"p1"}],"#,
            r#""rules":[{"from":"*","#,
            r#""to":"full","#,
            r#""up":["p0","p1"],"#,
            r#""when":[{"factor":"alternator1","value":"ok"},{"factor":"alternator2","value":"ok"}]"#,
            r#"},{"from":"*","#,
            r#""to":"minimal_a","#,
            r#""up":["p0"],"#,
            r#""when":[{"factor":"alternator1","value":"failed"},"#,
            r#"{"factor":"alternator2","value":"failed"}]},{"from":"*","#,
            r#""to":"minimal_b","#,
            r#""up":["p1"],"#,
            r#""when":[{"factor":"alternator1","value":"failed"},"#,
            r#"{"factor":"alternator2","value":"failed"}]},"#,
            r#"{"from":"*","to":"reduced_a","up":["p0"],"when":[]},"#,
            r#"{"from":"*","to":"reduced_b","up":["p1"],"when":[]}],"#,
            r#""scram":1,"#,
            r#""start":"full"}"#,
        )
    };
}

/// The text of the specification of an aircraft with two alternators and two computers.
const UAV: &str = aircraft!();

/// The text of the specification of the same aircraft with four further factors, which the generated scripts change.
const GENERATED: &str = aircraft!(
    r#",{"name":"aux0","values":["v0","v1","v2","v3"]}"#,
    r#",{"name":"aux1","values":["v0","v1","v2","v3"]}"#,
    r#",{"name":"aux2","values":["v0","v1","v2","v3"]}"#,
    r#",{"name":"aux3","values":["v0","v1","v2","v3"]}"#
);

/// Returns the text of the aircraft's specification.
pub(crate) fn uav() -> &'static str
    ensures { result.now ≡ uav_text }
{
    UAV
}

/// Returns the text of the generated missions' specification.
pub(crate) fn generated() -> &'static str
    ensures { result.now ≡ generated_text }
{
    GENERATED
}
