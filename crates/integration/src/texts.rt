//! The texts of faults that no command prints as they are.

use definitions::DefinitionFault;
use device::Device;
use dir_conf::{ConfFault, ConfFaultKind};
use entries::Refusal;
use filter::{FilterFault, FilterFaultKind};
use ldif::{LdifFault, LdifFaultKind, WriteFault};
use schema::{Code, PathFault, ValueFault};
use std::alloc::{AllocError, Global};
use std::fmt::Display;
use std::test::Fail;

fn put<T: Display + Drop>(alloc: Global, fault: T, out: &mut String) -> Result<(), AllocError> {
    let text = format!(in alloc; "{fault}\n")?;
    out.push_str(text.as_str())
}

fn put_faults_of_lines(alloc: Global, out: &mut String) -> Result<(), AllocError> {
    put(alloc, LdifFault::Fault(LdifFaultKind::Base64), out)?;
    put(alloc, LdifFault::OutOfMemory, out)?;
    put(alloc, WriteFault::Device, out)?;
    put(alloc, WriteFault::OutOfMemory, out)
}

fn put_faults_of_configurations(alloc: Global, out: &mut String) -> Result<(), AllocError> {
    let kind = ConfFaultKind::Suffix;
    put(alloc, ConfFault::Line { line: 12, kind }, out)?;
    put(alloc, ConfFault::OutOfMemory, out)?;
    put(alloc, DefinitionFault::Form, out)?;
    put(alloc, DefinitionFault::OutOfMemory, out)
}

fn put_faults_of_names_and_values(alloc: Global, out: &mut String) -> Result<(), AllocError> {
    put(alloc, PathFault::Code(Code::NoSuchObject), out)?;
    put(alloc, PathFault::OutOfMemory, out)?;
    put(alloc, ValueFault::Invalid, out)?;
    put(alloc, ValueFault::OutOfMemory, out)
}

fn put_faults_of_filters_and_devices(alloc: Global, out: &mut String) -> Result<(), AllocError> {
    let kind = FilterFaultKind::Syntax;
    put(alloc, FilterFault::At { at: 5, kind }, out)?;
    let kind = FilterFaultKind::Deep;
    put(alloc, FilterFault::At { at: 1024, kind }, out)?;
    put(alloc, FilterFault::OutOfMemory, out)?;
    put(alloc, Device, out)
}

fn put_refusals(alloc: Global, out: &mut String) -> Result<(), AllocError> {
    put(alloc, Refusal::Code(Code::NoSuchObject), out)?;
    put(alloc, Refusal::OutOfMemory, out)
}

#[test]
fn faults_have_their_texts(rt: HostRuntime) -> Result<(), Fail> {
    let mut out = String::new(rt.alloc());
    put_faults_of_lines(rt.alloc(), &mut out)?;
    assert_eq!(rt;
        out.as_str(),
        "L4 base64\nout of memory\ncannot write\nout of memory\n"
    );
    out.clear();
    put_faults_of_configurations(rt.alloc(), &mut out)?;
    assert_eq!(rt;
        out.as_str(),
        "line 12: C7 suffix\nout of memory\nthe definition can't be read\nout of memory\n"
    );
    out.clear();
    put_faults_of_names_and_values(rt.alloc(), &mut out)?;
    assert_eq!(rt;
        out.as_str(),
        "32 noSuchObject\nout of memory\nthe value is not valid for the type's syntax\nout of memory\n"
    );
    out.clear();
    put_faults_of_filters_and_devices(rt.alloc(), &mut out)?;
    assert_eq!(rt;
        out.as_str(),
        "fault at 5\ndeeper than 512\nout of memory\nthe device failed\n"
    );
    out.clear();
    put_refusals(rt.alloc(), &mut out)?;
    assert_eq!(rt; out.as_str(), "32 noSuchObject\nout of memory\n");
    Ok(())
}
