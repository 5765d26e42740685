//! Parts of programs and values.
use jd_value::{Fault, Shared, Txt, Value};
use sqlite_items::Items;
use std::alloc::Global;
use std::test::Fail;

pub fn name(alloc: Global, bytes: &[u8]) -> Result<Shared<Txt>, Fail> {
    Ok(Shared::new(alloc, Txt::from_bytes(alloc, bytes)?)?)
}

pub fn text_of(alloc: Global, bytes: &[u8]) -> Result<Value, Fail> {
    Ok(Value::Text(name(alloc, bytes)?))
}

pub fn list(alloc: Global, items: Items<Value>) -> Result<Value, Fail> {
    Ok(Value::List(Shared::new(alloc, items)?))
}

pub fn tuple(alloc: Global, items: Items<Value>) -> Result<Value, Fail> {
    Ok(Value::Tuple(Shared::new(alloc, items)?))
}

pub fn exception(alloc: Global, fault: Fault) -> Result<Value, Fail> {
    Ok(Value::Exception(Shared::new(alloc, fault)?))
}
