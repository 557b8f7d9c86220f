//! How the faults of the stages are reported.
use arc_fault::check::CheckFault;
use arc_fault::class::ClassFault;
use arc_fault::own::OwnFault;
use arc_fault::parse::ParseFault;

/// Whether this is the number, the name and the place of a fault.
fn is_reported(fault: ParseFault, number: u8, name: &str, at: usize) -> bool {
    fault.number() == number && fault.name() == name && fault.at() == at
}

#[test]
fn those_of_the_grammar(rt: HostRuntime) {
    let unexpected = is_reported(ParseFault::Unexpected(9), 11, "Unexpected", 9);
    let deep = is_reported(ParseFault::TooDeep(8), 12, "TooDeep", 8);
    assert!(rt; unexpected && deep && is_reported(ParseFault::Memory, 13, "Memory", 0));
}

#[test]
fn those_of_the_table(rt: HostRuntime) {
    let fault = ClassFault::Duplicate(17);
    assert!(rt; fault.number() == 21 && fault.name() == "Duplicate" && fault.at() == 17);
}

#[test]
fn those_of_the_check(rt: HostRuntime) {
    let fault = CheckFault::Memory;
    assert!(rt; fault.number() == 51 && fault.name() == "Memory" && fault.at() == 0);
}

#[test]
fn those_of_ownership(rt: HostRuntime) {
    let fault = OwnFault::SelfConst(7);
    assert!(rt; fault.number() == 47 && fault.name() == "SelfConst" && fault.at() == 7);
}
