//! Text that is written part by part.

use crate::claims::{holds, is_equal};
use serde_qs::{Config, Data, Error, Scalar, Serialize, Stop, WriteResult, Writer};

// Writes a part by each call of a writer.
fn parts(writer: &mut Writer) -> WriteResult {
    let name = writer.enter(Scalar::Bytes(b"a b"))?;
    let first = writer.enter(Scalar::Unsigned(0))?;
    writer.scalar(Scalar::Char('\u{e9}'))?;
    writer.leave(first);
    let second = writer.enter(Scalar::Signed(-1))?;
    writer.none()?;
    writer.leave(second);
    writer.unit()?;
    writer.data(&Data::Unsigned(7))?;
    writer.leave(name);
    let last = writer.enter(Scalar::Bool(true))?;
    true.write_to(writer)?;
    writer.leave(last);
    Ok(())
}

#[test]
fn each_part(rt: HostRuntime) {
    let mut writer = Writer::new(rt.alloc(), Config::new()).expect(&rt, "memory");
    holds(&rt, parts(&mut writer).is_ok(), "parts");
    let whole = writer.take();
    holds(&rt, writer.into_text().is_empty(), "nothing is left");
    let wanted = "a+b[0]=%C3%A9&a+b[-1]&a+b=&a+b=7&true=true";
    is_equal(&rt, whole.into_text().as_slice(), wanted.as_bytes());
}

#[test]
fn each_stop(rt: HostRuntime) {
    let config = Config::new().max_depth(0);
    let mut writer = Writer::new(rt.alloc(), config).expect(&rt, "memory");
    let result = parts(&mut writer);
    holds(&rt, matches!(result, Err(Stop::TooDeep)), "too deep");
    holds(&rt, writer.into_text().is_empty(), "nothing is written");
}

#[test]
fn the_error_of_each_stop(rt: HostRuntime) {
    let config = Config::new().max_depth(0);
    let error = Stop::TooDeep.into_error(config);
    let is_too_deep = matches!(error, Error::MaxSerializationDepthExceeded(0));
    holds(&rt, is_too_deep, "too deep");
    let error = Stop::BadKey.into_error(config);
    holds(&rt, matches!(error, Error::Unsupported), "a bad key");
    let error = Stop::OutOfMemory.into_error(config);
    holds(&rt, matches!(error, Error::OutOfMemory), "memory");
}
