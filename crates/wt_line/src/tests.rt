// One line, read by each call.
use crate::{Place, Rest, TextFault, What, line_end, next_line, number_to, placed, word};

// The count of a line `steps N`, and the place behind it.
fn steps(place: Place<'_>) -> Result<(u32, Place<'_>), TextFault> {
    let number = place.number;
    let (line, place) = next_line(place)?;
    let rest = placed(word("steps", Rest::new(line)), number)?;
    let (count, rest) = placed(number_to(32, What::Steps, rest), number)?;
    placed(line_end(rest), number)?;
    match count {
        Ok(count) => Ok((count, place)),
        Err(what) => Err(TextFault::Limit { what, line: number }),
    }
}

#[test]
fn reads_a_line_of_steps(rt: HostRuntime) {
    let read = steps(Place::new(b"steps 3\n"));
    assert!(rt;
        read.is_ok_and(|(count, place)| count == 3 && place.number == 2 && place.bytes.is_empty())
    );
}

#[test]
fn form_comes_before_limits(rt: HostRuntime) {
    let long = steps(Place::new(b"steps 33 4\n"));
    assert!(rt; long.is_err_and(|fault| fault == TextFault::Syntax { line: 1 }));
    let past = steps(Place::new(b"steps 33\n"));
    assert!(rt;
        past.is_err_and(|fault| fault
            == TextFault::Limit {
                what: What::Steps,
                line: 1
            })
    );
}
