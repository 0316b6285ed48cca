// Refused calls.
use sheet::refusal::{Layer, Refusal};
use std::process::Abort;
use std::test::Fail;

// The call is refused with a number and a place, by a layer; the note says why.
pub fn refused<T: Drop>(
    rt: &impl Abort,
    answer: Result<T, Refusal>,
    layer: Layer,
    number: u16,
    place: u32,
    note: &str,
) -> Result<(), Fail> {
    let Err(refusal) = answer else {
        return Err(Fail::new("the call was served"));
    };
    assert_eq!(rt; refusal.number(), number, "{note}");
    assert_eq!(rt; refusal.place(), place, "{note}");
    assert_eq!(rt; refusal.layer(), layer, "{note}");
    Ok(())
}
