//! Numbers, bytes that are no text, and a value printed. Other faults are rows of examples/tables.
ghost use Rattle.std.specs.Prelude.{◌<◌, ◌^◌, length};

use exact_json::{Json, JsonFault, JsonKind, print, read};
use std::alloc::Global;
use std::process::Abort;

fn number(rt: &impl Abort, alloc: Global, text: &str, digits: u64, places: u8)
    requires { length text.now < 2 ^ 32 }
{
    let Ok(value) = read(alloc, text.as_bytes()) else {
        panic!(rt; "no value");
    };
    let Json::Number(number) = &value else {
        panic!(rt; "no number");
    };
    let number = *number;
    assert!(rt; !number.negative);
    assert!(rt; number.digits == digits);
    assert!(rt; number.places == places);
}

#[test]
fn numbers_keep_their_places(rt: HostRuntime) {
    let alloc = rt.alloc();
    number(&rt, alloc, "1.50", 150, 2);
    number(&rt, alloc, "15e-1", 15, 1);
    number(&rt, alloc, "1.5e1", 15, 0);
    number(&rt, alloc, "2e3", 2000, 0);
    number(&rt, alloc, "-0", 0, 0);
    number(&rt, alloc, "0e9999", 0, 0);
}

#[test]
fn bytes_that_are_no_character_are_refused(rt: HostRuntime) {
    let alloc = rt.alloc();
    match read(alloc, b"\"a\xffb\"".as_slice()) {
        Err(JsonFault::At { byte, kind }) => {
            assert!(rt; byte == 2);
            assert!(rt; kind == JsonKind::Utf8);
        }
        _ => panic!(rt; "no fault"),
    }
}

#[test]
fn a_value_is_printed_with_no_spaces_and_no_exponents(rt: HostRuntime) {
    let alloc = rt.alloc();
    let Ok(value) = read(alloc, b"[ 1.50, 5e-3, -0, \"\\u001F\" ]".as_slice()) else {
        panic!(rt; "no value");
    };
    let Ok(text) = print(alloc, &value) else {
        panic!(rt; "no memory");
    };
    assert!(rt; text.as_str() == "[1.50,0.005,0,\"\\u001f\"]");
}
