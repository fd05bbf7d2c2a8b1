// That the comparison tells a text from another by one byte, and finds which buffers a listing fits.
use crate::{fills_buffer, fits_exactly, is_same, refuses_buffer};
use std::test::Fail;

// A file of a header, close and settle.
const EMPTY_HOUR: &[u8] = &[
    5, 0, 0, 0x10, 0, 0, 0, 0, 0, 0, 0, 0, 0, 0, 0, 0, 0, 0, 0, 0, 0, 0, 0, 0, 0, 0, 0, 0xa0, 0, 0,
    0, 0xe0,
];

#[test]
fn one_digit_that_differs(rt: HostRuntime) -> Result<(), Fail> {
    assert!(rt; is_same(rt.alloc(), b"", b"R F 12 0\n")?);
    assert!(rt; !is_same(rt.alloc(), b"", b"R F 12 1\n")?);
    assert!(rt; !is_same(rt.alloc(), b"", b"R F 12 0")?);
    Ok(())
}

#[test]
fn buffers_about_the_length_of_a_listing(rt: HostRuntime) -> Result<(), Fail> {
    let (heap, want) = (rt.alloc(), b"H 0 0 0\n");
    assert!(rt; fits_exactly(heap, EMPTY_HOUR, want)?);
    assert!(rt; refuses_buffer(heap, EMPTY_HOUR, 0)?);
    assert!(rt; refuses_buffer(heap, EMPTY_HOUR, 7)?);
    assert!(rt; !fills_buffer(heap, EMPTY_HOUR, want, 7)?);
    assert!(rt; fills_buffer(heap, EMPTY_HOUR, want, 8)?);
    assert!(rt; !refuses_buffer(heap, EMPTY_HOUR, 8)?);
    assert!(rt; fills_buffer(heap, EMPTY_HOUR, want, 9)?);
    assert!(rt; !refuses_buffer(heap, EMPTY_HOUR, 9)?);
    Ok(())
}
