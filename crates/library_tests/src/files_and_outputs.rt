use ix_bits::{Bits, List, Memory, Name};
use ix_io::{
    HostShelf, HostSink, MemShelf, MemSink, Out, ReadErr, SureShelf, SureSink, read_all, write_all,
};
use std::alloc::Global;
use std::test::Fail;
use std::{fs, process};

const TEXT: &[u8] = b"0000000 twenty bytes";

// One file `a`, which is not the last of that name.
fn files(alloc: Global, bytes: &[u8]) -> Result<List<(Name, List<u8>)>, Memory> {
    let mut files = List::new(alloc);
    files.push((
        Name::from_text(alloc, "a")?,
        List::from_slice(alloc, bytes)?,
    ))?;
    files.push((
        Name::from_text(alloc, "b")?,
        List::from_slice(alloc, b"other")?,
    ))?;
    files.push((
        Name::from_text(alloc, "a")?,
        List::from_slice(alloc, b"later")?,
    ))?;
    Ok(files)
}

#[test]
fn a_read_that_fails_in_turn(rt: HostRuntime) -> Result<(), Fail> {
    let alloc = rt.alloc();
    // Twenty bytes take three parts, and a fourth shows the end.
    for n in 0..5 {
        let fail = List::from_slice(alloc, &[n])?;
        let mut shelf = MemShelf::new(files(alloc, TEXT)?, fail, 7);
        match read_all(alloc, &mut shelf, "a") {
            Ok(bytes) => {
                assert_eq!(rt; n, 4);
                assert_eq!(rt; bytes.as_slice(), TEXT);
            }
            Err(error) => {
                assert!(rt; n < 4);
                assert_eq!(rt; error, ReadErr::Fault);
            }
        }
    }
    Ok(())
}

#[test]
fn a_name_that_is_not_there(rt: HostRuntime) -> Result<(), Fail> {
    let alloc = rt.alloc();
    let mut shelf = MemShelf::new(files(alloc, TEXT)?, List::new(alloc), 7);
    let read = read_all(alloc, &mut shelf, "c");
    assert!(rt; matches!(&read, Err(ReadErr::Fault)));
    Ok(())
}

#[test]
fn a_sure_name_that_is_not_there(rt: HostRuntime) -> Result<(), Fail> {
    let alloc = rt.alloc();
    let mut shelf = SureShelf::new(files(alloc, TEXT)?);
    let read = read_all(alloc, &mut shelf, "c")?;
    assert_eq!(rt; read.len(), 0);
    Ok(())
}

#[test]
fn a_name_that_is_there(rt: HostRuntime) -> Result<(), Fail> {
    let alloc = rt.alloc();
    let mut shelf = SureShelf::new(files(alloc, TEXT)?);
    let read = read_all(alloc, &mut shelf, "b")?;
    assert_eq!(rt; read.as_slice(), b"other".as_slice());
    Ok(())
}

#[test]
fn the_greatest_length(rt: HostRuntime) -> Result<(), Fail> {
    let alloc = rt.alloc();
    for (length, fits) in [(1_048_576, true), (1_048_577, false)] {
        let bytes = vec![in alloc; 7; length]?;
        let mut shelf = SureShelf::new(files(alloc, bytes.as_slice())?);
        match read_all(alloc, &mut shelf, "a") {
            Ok(read) => {
                assert!(rt; fits);
                assert_eq!(rt; read.len(), length);
            }
            Err(error) => {
                assert!(rt; !fits);
                assert_eq!(rt; error, ReadErr::TooLong);
            }
        }
    }
    Ok(())
}

#[test]
fn a_write_that_fails_in_turn(rt: HostRuntime) -> Result<(), Fail> {
    let alloc = rt.alloc();
    for (n, written) in [(0, 0), (1, 9), (2, 18), (3, 20)] {
        let mut sink = MemSink::new(alloc, List::from_slice(alloc, &[n])?, 9)?;
        let result = write_all(&mut sink, TEXT);
        assert_eq!(rt; result.is_ok(), n == 3);
        assert!(rt; written <= TEXT.len());
        assert_eq!(rt; sink.bytes(), &TEXT[..written]);
    }
    Ok(())
}

const DIGITS: &[u8] = b"x 0 18446744073709551615 00008f0a";

// An output that holds `DIGITS`.
fn digits(alloc: Global) -> Result<Out, Memory> {
    let mut out = Out::new(alloc)?;
    out.text("x ");
    out.decimal(0);
    out.text(" ");
    out.decimal(18_446_744_073_709_551_615);
    out.text(" ");
    let word = Bits {
        raw: 0x8f0a,
        width: 32,
    };
    out.hex(word, 8);
    Ok(out)
}

#[test]
fn an_output_of_text_and_digits(rt: HostRuntime) -> Result<(), Fail> {
    let out = digits(rt.alloc())?;
    assert_eq!(rt; out.bytes(), DIGITS);
    assert_eq!(rt; out.room(), 65_503);
    Ok(())
}

#[test]
fn an_output_whose_write_fails(rt: HostRuntime) -> Result<(), Fail> {
    let alloc = rt.alloc();
    let mut out = digits(alloc)?;
    let mut sink = MemSink::new(alloc, List::from_slice(alloc, &[1])?, 4)?;
    assert!(rt; out.flush(&mut sink).is_err());
    assert_eq!(rt; sink.bytes(), b"x 0 ".as_slice());
    assert_eq!(rt; out.bytes(), DIGITS);
    Ok(())
}

#[test]
fn an_output_that_is_written(rt: HostRuntime) -> Result<(), Fail> {
    let alloc = rt.alloc();
    let mut out = digits(alloc)?;
    let mut sure = SureSink::new(alloc, 33)?;
    out.flush(&mut sure)?;
    assert_eq!(rt; sure.bytes(), DIGITS);
    assert_eq!(rt; out.bytes().len(), 0);
    Ok(())
}

#[test]
fn a_sink_tells_what_fits(rt: HostRuntime) -> Result<(), Fail> {
    let mut sink = SureSink::new(rt.alloc(), 20)?;
    write_all(&mut sink, TEXT)?;
    assert!(rt; sink.is_whole());
    assert_eq!(rt; sink.bytes(), TEXT);
    write_all(&mut sink, b"!")?;
    assert!(rt; !sink.is_whole());
    Ok(())
}

#[test]
fn a_file_of_the_host(rt: HostRuntime) -> Result<(), Fail> {
    let alloc = rt.alloc();
    let path = format!(in alloc; "/tmp/ix_io_{}", process::id(rt.process()))?;
    let bytes = vec![in alloc; 7; 200_000]?;
    fs::write(&rt, path.as_str(), bytes.as_slice())?;
    let mut shelf = HostShelf::new(&rt);
    let read = read_all(alloc, &mut shelf, path.as_str());
    fs::remove_file(&rt, path.as_str())?;
    assert_eq!(rt; read?.as_slice(), bytes.as_slice());
    let missing = read_all(alloc, &mut shelf, path.as_str());
    assert!(rt; matches!(&missing, Err(ReadErr::Fault)));
    Ok(())
}

#[test]
fn the_output_of_the_host(rt: HostRuntime) -> Result<(), Fail> {
    let mut sink = HostSink::new(&rt);
    write_all(&mut sink, b"a text reaches the standard output\n")?;
    Ok(())
}
