// What is written of records and of other forms, and what a record is read back as.
use basic_toml::{Float, from_str, to_string};
use basic_toml_returns::write_then_read;
use std::alloc::{AllocError, Global};
use std::collections::BTreeMap;
use std::test::Fail;
use toml_callers::forms::{Entry, Point, Present, Wrapper};
use toml_callers::manifest::Manifest;
use toml_callers::records::{Choice, Job, Rule, Server};
use toml_callers::types::Service;

fn rule(alloc: Global, pattern: &str, limit: u32) -> Result<Rule, AllocError> {
    let pattern = String::from_str(alloc, pattern)?;
    Ok(Rule { pattern, limit })
}

fn rules(alloc: Global) -> Result<Vec<Rule>, AllocError> {
    vec![in alloc; rule(alloc, "*.md", 80)?, rule(alloc, "*.rs", 120)?].map_err(AllocError::from)
}

fn server(alloc: Global) -> Result<Server, AllocError> {
    Ok(Server {
        verbose: true,
        port: Some(80),
        host_name: String::from_str(alloc, "localhost")?,
        rules: rules(alloc)?,
        backup: None,
    })
}

fn job(alloc: Global, choice: Choice) -> Result<Job, AllocError> {
    let mut limits = BTreeMap::new(alloc);
    limits
        .insert(String::from_str(alloc, "low")?, 1)
        .map_err(AllocError::from)?;
    let mut by_name = BTreeMap::new(alloc);
    by_name
        .insert(String::from_str(alloc, "all")?, rules(alloc)?)
        .map_err(AllocError::from)?;
    let row = vec![in alloc; 1, -2].map_err(AllocError::from)?;
    Ok(Job {
        name: String::from_str(alloc, "nightly")?,
        priority: -7,
        retries: 3,
        seed: 9223372036854775807,
        enabled: false,
        mark: '\u{e9}',
        owner: None,
        timeout: Some(60),
        ratio: Float::parse(alloc, "0.5")?,
        tags: vec![in alloc; String::from_str(alloc, "a b")?].map_err(AllocError::from)?,
        grid: vec![in alloc; row, Vec::new(alloc)].map_err(AllocError::from)?,
        choice,
        limits,
        server: server(alloc)?,
        fallback: Some(server(alloc)?),
        rules: by_name,
    })
}

// The text of a job before its choice, and behind it.
const START: &str =
    "name = \"nightly\"\npriority = -7\nretries = 3\nseed = 9223372036854775807\nenabled = false\nmark = \"\u{e9}\"\ntimeout = 60\nratio = 0.5\ntags = [\"a b\"]\ngrid = [[1, -2], []]\n";

const REST: &str =
    "\n[limits]\nlow = 1\n\n[server]\nverbose = true\nport = 80\nhost_name = \"localhost\"\n\n[[server.rules]]\npattern = \"*.md\"\nlimit = 80\n\n[[server.rules]]\npattern = \"*.rs\"\nlimit = 120\n\n[fallback]\nverbose = true\nport = 80\nhost_name = \"localhost\"\n\n[[fallback.rules]]\npattern = \"*.md\"\nlimit = 80\n\n[[fallback.rules]]\npattern = \"*.rs\"\nlimit = 120\n[[rules.all]]\npattern = \"*.md\"\nlimit = 80\n\n[[rules.all]]\npattern = \"*.rs\"\nlimit = 120\n";

#[test]
fn writes_a_record_with_a_name(rt: HostRuntime) -> Result<(), Fail> {
    let alloc = rt.alloc();
    let job = job(alloc, Choice::Named(String::from_str(alloc, "short")?))?;
    assert_eq!(rt;
        to_string(alloc, &job)?.as_str(),
        format!(in alloc; "{START}choice = \"short\"\n{REST}")?.as_str()
    );
    Ok(())
}

#[test]
fn writes_a_record_with_a_table(rt: HostRuntime) -> Result<(), Fail> {
    let alloc = rt.alloc();
    let job = job(alloc, Choice::Whole(rule(alloc, "*.c", 72)?))?;
    assert_eq!(rt;
        to_string(alloc, &job)?.as_str(),
        format!(in alloc; "{START}\n[choice]\npattern = \"*.c\"\nlimit = 72\n{REST}")?.as_str()
    );
    Ok(())
}

#[test]
fn writes_other_forms(rt: HostRuntime) -> Result<(), Fail> {
    let alloc = rt.alloc();
    let point = Point {
        x: 1,
        name: Some(String::from_str(alloc, "one")?),
    };
    let entry = Entry {
        key: String::from_str(alloc, "a b")?,
        value: vec![in alloc; point].map_err(AllocError::from)?,
    };
    assert_eq!(rt;
        to_string(alloc, &Present(Wrapper(entry)))?.as_str(),
        "\"a b\" = [[1, \"one\"]]\n"
    );
    Ok(())
}

#[test]
fn a_record_of_sixteen_fields_returns(rt: HostRuntime) -> Result<(), Fail> {
    let alloc = rt.alloc();
    let text =
        "name = \"a\"\nenabled = true\npriority = -1\noffset = -2\nlevel = -3\nbalance = -4\n\
                retries = 1\nport = 2\nbacklog = 3\ntimeout = 4\nratio = 0.5\n\
                tags = [\"x\", \"y\"]\ncolor = \"blue\"\nlog = \"z\"\n\n[limits]\nmemory = 5\n";
    let service: Service = from_str(alloc, text)?;
    assert_eq!(rt; to_string(alloc, &service)?.as_str(), text);
    let service = write_then_read(alloc, &service)?;
    assert_eq!(rt; to_string(alloc, &service)?.as_str(), text);
    Ok(())
}

#[test]
fn a_choice_of_forms_returns(rt: HostRuntime) -> Result<(), Fail> {
    let alloc = rt.alloc();
    let text = "name = \"a\"\n\n[dependencies]\nlibc = \"0.2\"\n\n\
                [dependencies.serde]\npath = \"serde\"\noptional = true\n";
    let manifest: Manifest = from_str(alloc, text)?;
    let manifest = write_then_read(alloc, &manifest)?;
    assert_eq!(rt; to_string(alloc, &manifest)?.as_str(), text);
    Ok(())
}
