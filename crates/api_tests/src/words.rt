// What is read and refused of each kind of word.
use notation::error::NotationError;
use notation::error::NotationError::{Bit, Bytes, Mark};
use notation::hexadecimal::{read_array, read_byte};
use notation::words::{read_bit, read_locks, read_mark, read_permission};
use record::WriteMark;

// The crate `hex` reads small letters too, which are no digits here.
#[test]
fn bytes_are_read(rt: HostRuntime) {
    for text in [
        "0", "000", "0G", "0x", "+1", " 0", "--", "-0", "ff", "Ff", "fF", "a0", "0a",
    ] {
        assert!(rt; read_byte(text) == Err(NotationError::Bytes), "{text}");
    }
    assert!(rt; read_byte("9C") == Ok(0x9c));
    assert!(rt; read_array::<3>("0001FE") == Ok([0x00, 0x01, 0xfe]));
}

#[test]
fn words_of_a_record(rt: HostRuntime) {
    for (text, bit, mark, permission) in [
        ("0", Ok(false), Ok(WriteMark::Clear), Err(Bytes)),
        ("1", Ok(true), Ok(WriteMark::Fading), Err(Bytes)),
        ("2", Err(Bit), Ok(WriteMark::Fresh), Err(Bytes)),
        ("3", Err(Bit), Err(Mark), Err(Bytes)),
        ("+2", Err(Bit), Err(Mark), Err(Bytes)),
        ("02", Err(Bit), Err(Mark), Ok(Some(0x02))),
        ("37", Err(Bit), Err(Mark), Ok(Some(0x37))),
        ("-", Err(Bit), Err(Mark), Ok(None)),
    ] {
        assert!(rt; read_bit(text) == bit, "{text}");
        assert!(rt; read_mark(text) == mark, "{text}");
        assert!(rt; read_permission(text) == permission, "{text}");
    }
}

#[test]
fn locks_from_the_highest_bit_on(rt: HostRuntime) {
    let locks = read_locks("C0000000000001").expect(&rt, "locks");
    for (address, is_locked) in locks.iter().enumerate() {
        let wanted = address < 2 || address == 55;
        assert!(rt; *is_locked == wanted, "{address}");
    }
    assert!(rt; read_locks("C00000000000") == Err(NotationError::Bytes));
}
