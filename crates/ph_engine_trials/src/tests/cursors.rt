//! What a slot keeps for a cursor.
use super::claims::holds;
use ph_engine::Held;

// It has these fields and no other.
#[test]
fn fields(rt: HostRuntime) {
    let Held { name, cursor: _ } = &Held::<2>::default();
    holds(&rt, name.as_str() == "-");
}
