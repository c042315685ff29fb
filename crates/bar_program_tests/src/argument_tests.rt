use crate::outcome::words_of;
use bar_arguments::{WordsFault, id_of, number_in, option_values};
use std::test::Fail;

/// Rows of arguments and the values of the options `key` and `found` that they give. If a row has too few cells, both values are empty.
const TAKEN: &str = "\
    --key k --found f|k|f;\
    --found f --key k|k|f;\
    --found=f --key k|k|f;\
    --key= --found ||;\
    --key - --found=--key|-|--key;\
    --key=a=b --found 007|a=b|007;\
    --key=k --found=f --|k|f";

#[test]
fn taken_words_have_their_values(rt: HostRuntime) -> Result<(), Fail> {
    for row in TAKEN.split(';') {
        let (line, rest) = row.split_once('|').unwrap_or(("", ""));
        let (key, found) = rest.split_once('|').unwrap_or(("", ""));
        let words = words_of(rt.alloc(), line)?;
        let values = option_values(rt.alloc(), &["key", "found"], &words)?;
        assert_eq!(rt; values.as_slice(), [key, found].as_slice(), "{line}");
    }
    Ok(())
}

/// Lines of arguments, each of which is refused for these options.
const REFUSED: &str = "\
    ;\
    --key k;\
    --key k --found;\
    --key --found --found f;\
    --key=k --key=k --found=f;\
    --key=k --found=f --found=f;\
    --key=k --found=f x;\
    x --key=k --found=f;\
    --key=k --found=f -- x;\
    --ke=k --found=f;\
    -k k --found=f;\
    --key=k --found=f --help;\
    --key=k --found=f --other=o";

#[test]
fn other_words_are_refused(rt: HostRuntime) -> Result<(), Fail> {
    for line in REFUSED.split(';') {
        let words = words_of(rt.alloc(), line)?;
        let fault = option_values(rt.alloc(), &["key", "found"], &words).err();
        assert_eq!(rt; fault, Some(WordsFault::Usage), "{line}");
    }
    Ok(())
}

#[test]
fn numbers_in_their_range_are_read(rt: HostRuntime) {
    let numbers = [1, 200, 7];
    for (word, wanted) in "1;200;007".split(';').zip(numbers) {
        assert!(rt; number_in(word, 1, 200) == Some(wanted), "{word}");
    }
    for word in "0;201;;+7;-7;7 ;0x7;18446744073709551617".split(';') {
        assert!(rt; number_in(word, 1, 200).is_none(), "{word}");
    }
}

#[test]
fn ids_are_sixteen_digits_of_hex(rt: HostRuntime) {
    let id = [0x00, 0x11, 0x22, 0x33, 0x44, 0x55, 0x66, 0xff];
    assert!(rt; id_of("00112233445566fF") == Some(id));
    for word in ";0011223344556;00112233445566;0011223344556677 ".split(';') {
        assert!(rt; id_of(word).is_none(), "{word}");
    }
}
