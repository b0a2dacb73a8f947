// Types of the library, behind calls.
use basic_toml_value::{Table, Value};
use basic_toml_write::{Serializer, WriteError};
use std::alloc::{AllocError, Global};
use std::collections::BTreeMap;

#[test]
fn writes_lists(rt: HostRuntime) -> Result<(), WriteError> {
    let alloc = rt.alloc();
    let numbers: &[u8] = &[1, 2];
    let more = vec![in alloc; 3u8, 4].map_err(AllocError::from)?;
    let mut ser = Serializer::new(alloc);
    ser.serialize_struct("Lists", 0)?;
    ser.serialize_field("o", &numbers)?;
    ser.serialize_key(&"p")?;
    ser.serialize_value(&more)?;
    ser.end()?;
    assert_eq!(rt; ser.finish()?.as_str(), "o = [1, 2]\np = [3, 4]\n");
    Ok(())
}

#[test]
fn writes_maps(rt: HostRuntime) -> Result<(), WriteError> {
    let alloc = rt.alloc();
    let mut ser = Serializer::new(alloc);
    ser.serialize_struct("Maps", 0)?;
    ser.serialize_field("t", &map(alloc)?)?;
    ser.serialize_field("u", &table(alloc)?)?;
    ser.end()?;
    assert_eq!(rt;
        ser.finish()?.as_str(),
        "[t]\ny = 1\nz = 2\n\n[u]\nz = 2\ny = [false]\n"
    );
    Ok(())
}

fn map(alloc: Global) -> Result<BTreeMap<String, u8>, AllocError> {
    let mut map = BTreeMap::new(alloc);
    map.insert(String::from_str(alloc, "z")?, 2u8)
        .map_err(AllocError::from)?;
    map.insert(String::from_str(alloc, "y")?, 1u8)
        .map_err(AllocError::from)?;
    Ok(map)
}

fn table(alloc: Global) -> Result<Table, AllocError> {
    let mut table = Table::new(alloc);
    let _ = table.push(String::from_str(alloc, "z")?, Value::Integer(2));
    let values = vec![in alloc; Value::Boolean(false)].map_err(AllocError::from)?;
    let _ = table.push(String::from_str(alloc, "y")?, Value::Array(values));
    Ok(table)
}
