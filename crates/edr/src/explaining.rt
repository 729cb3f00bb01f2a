//! Explains faults in words.
ghost use Rattle.std.specs.Prelude.{◌≡◌, ◌++◌, [], codes, IfOk, OnOk, OnErr};
ghost use Rattle.std.specs.Char.{is_ascii_graphic};
ghost use Rattle.std.specs.Fmt.{decimal};
ghost use Rattle.std.specs.List.{list_all};
ghost use Rattle.edr.specs.Explaining.{member_name, is_shown, shown, cov_said, change_said};
ghost use Rattle.edr.specs.Said.{document_said, line_said, feed_explained, fault_said, reply_explained};

use covjson_checks::{CovFault, Member};
use edr_base::{OutOfMemory, Text};
use edr_draft::ChangeFault;
use edr_feed::FeedFault;
use edr_fetch::FetchFault;
use itoa::Buffer;
use std::alloc::Global;

// How many characters of a text that was read are said at most.
const SHOWN_LIMIT: usize = 64;

// The name of a member.
fn member_name(member: Member) -> &'static [u8]
    ensures { result.now ≡ member_name member }
{
    match member {
        Member::Document => b"document",
        Member::Kind => b"type",
        Member::Coverages => b"coverages",
        Member::Domain => b"domain",
        Member::DomainType => b"domainType",
        Member::Axes => b"axes",
        Member::T => b"t",
        Member::Z => b"z",
        Member::Y => b"y",
        Member::X => b"x",
        Member::Composite => b"composite",
        Member::Referencing => b"referencing",
        Member::Parameters => b"parameters",
        Member::ObservedProperty => b"observedProperty",
        Member::Unit => b"unit",
        Member::Ranges => b"ranges",
        Member::DataType => b"dataType",
        Member::AxisNames => b"axisNames",
        Member::Shape => b"shape",
        Member::Values => b"values",
    }
}

// One text and another behind it.
fn joined(alloc: Global, first: &[u8], second: &[u8]) -> Result<Text, OutOfMemory>
    ensures { IfOk result (λ text. text ≡ first.now ++ second.now) }
{
    let mut text = Vec::from_slice(alloc, first)?;
    text.extend_from_slice(second)?;
    Ok(Text::from_vec(text))
}

// A text, and a number behind it.
fn numbered(alloc: Global, text: &[u8], number: u128) -> Result<Text, OutOfMemory>
    ensures { IfOk result (λ said. said ≡ text.now ++ decimal number) }
{
    let mut buffer = Buffer::new();
    joined(alloc, text, buffer.format(number).as_bytes())
}

// A number, and a text behind it.
fn number_before(alloc: Global, number: u128, text: &[u8]) -> Result<Text, OutOfMemory>
    ensures { IfOk result (λ said. said ≡ decimal number ++ text.now) }
{
    let mut buffer = Buffer::new();
    joined(alloc, buffer.format(number).as_bytes(), text)
}

// Whether all are visible characters of ASCII.
fn are_visible(text: &[u8]) -> bool
    ensures { result ≡ list_all is_ascii_graphic text.now }
{
    text.iter().all(|byte| byte.is_ascii_graphic())
}

// Whether a text that was read is said.
fn is_shown(text: &[u8]) -> bool
    ensures { result ≡ is_shown text.now }
{
    !text.is_empty() && text.len() <= SHOWN_LIMIT && are_visible(text)
}

// A text that was read, as it is said.
fn shown(alloc: Global, text: &[u8]) -> Result<Text, OutOfMemory>
    ensures { IfOk result (λ said. said ≡ shown text.now) }
{
    if is_shown(text) {
        joined(alloc, b" ", text)
    } else {
        Text::of(alloc, b"")
    }
}

// A name, and a text that was read behind it.
fn named(alloc: Global, name: &[u8], text: &[u8]) -> Result<Text, OutOfMemory>
    ensures { IfOk result (λ said. said ≡ name.now ++ shown text.now) }
{
    let behind = shown(alloc, text)?;
    joined(alloc, name, behind.bytes())
}

// A name, and a member behind it.
fn of_member(alloc: Global, name: &[u8], member: Member) -> Result<Text, OutOfMemory>
    ensures { IfOk result (λ said. said ≡ name.now ++ member_name member) }
{
    joined(alloc, name, member_name(member))
}

// The place in a list of what is out of range there.
fn out_of_range(alloc: Global, member: Member, place: usize) -> Result<Text, OutOfMemory>
    ensures { IfOk result (λ said. said ≡ cov_said (CovFault.OutOfRangeAt member place)) }
{
    let behind = numbered(alloc, b" ", place as u128)?;
    let named = joined(alloc, member_name(member), behind.bytes())?;
    joined(alloc, b"OutOfRange ", named.bytes())
}

// The counts of a member, one behind the other.
fn counts_behind(alloc: Global, wanted: u128, found: u128) -> Result<Text, OutOfMemory>
    ensures { IfOk result (λ said. said ≡ codes " " ++ (decimal wanted ++ (codes " " ++ decimal found))) }
{
    let found = numbered(alloc, b" ", found)?;
    let both = number_before(alloc, wanted, found.bytes())?;
    joined(alloc, b" ", both.bytes())
}

// The wrong count of a member.
fn wrong_count(
    alloc: Global,
    member: Member,
    wanted: u128,
    found: u128,
) -> Result<Text, OutOfMemory>
    ensures { IfOk result (λ said. said ≡ cov_said (CovFault.WrongCount member wanted found)) }
{
    let counts = counts_behind(alloc, wanted, found)?;
    let named = joined(alloc, member_name(member), counts.bytes())?;
    joined(alloc, b"WrongCount ", named.bytes())
}

// A fault of a coverage or a document.
fn cov_said(alloc: Global, fault: &CovFault) -> Result<Text, OutOfMemory>
    ensures { IfOk result (λ said. said ≡ cov_said fault.now) }
{
    match fault {
        CovFault::NotJson => Text::of(alloc, b"NotJson"),
        CovFault::Missing(member) => of_member(alloc, b"Missing ", *member),
        CovFault::WrongType(member) => of_member(alloc, b"WrongType ", *member),
        CovFault::UnsupportedDomain(name) => named(alloc, b"UnsupportedDomain", name.bytes()),
        CovFault::UnsupportedSystem(name) => named(alloc, b"UnsupportedSystem", name.bytes()),
        CovFault::UnsupportedRange(name) => named(alloc, b"UnsupportedRange", name.bytes()),
        CovFault::NotWhole(member) => of_member(alloc, b"NotWhole ", *member),
        CovFault::OutOfRange(member) => of_member(alloc, b"OutOfRange ", *member),
        CovFault::OutOfRangeAt(member, place) => out_of_range(alloc, *member, *place),
        CovFault::BadTime(place) => numbered(alloc, b"BadTime ", *place as u128),
        CovFault::NotMonotonic(member) => of_member(alloc, b"NotMonotonic ", *member),
        CovFault::WrongCount(member, wanted, found) => wrong_count(alloc, *member, *wanted, *found),
        CovFault::OutOfMemory => Text::of(alloc, b"OutOfMemory"),
    }
}

// Why a change can't be made.
fn change_said(alloc: Global, fault: &ChangeFault) -> Result<Text, OutOfMemory>
    ensures { IfOk result (λ said. said ≡ change_said fault.now) }
{
    match fault {
        ChangeFault::SameCollection => Text::of(alloc, b"SameCollection"),
        ChangeFault::UnknownCollection => Text::of(alloc, b"UnknownCollection"),
        ChangeFault::WrongKind => Text::of(alloc, b"WrongKind"),
        ChangeFault::UnknownInstance => Text::of(alloc, b"UnknownInstance"),
        ChangeFault::UnknownStation => Text::of(alloc, b"UnknownStation"),
        ChangeFault::NoTimes => Text::of(alloc, b"NoTimes"),
        ChangeFault::CrsDiffers => Text::of(alloc, b"CrsDiffers"),
        ChangeFault::TooManyNodes(count) => numbered(alloc, b"TooManyNodes ", *count as u128),
        ChangeFault::ParametersDiffer(id) => named(alloc, b"ParametersDiffer", id.bytes()),
        ChangeFault::LevelsDiffer => Text::of(alloc, b"LevelsDiffer"),
        ChangeFault::OutOfMemory => Text::of(alloc, b"OutOfMemory"),
    }
}

// What is said of a document.
fn document_said(alloc: Global, fault: &CovFault) -> Result<Text, OutOfMemory>
    ensures { IfOk result (λ said. said ≡ codes ": " ++ cov_said fault.now) }
{
    let said = cov_said(alloc, fault)?;
    joined(alloc, b": ", said.bytes())
}

// What is said of a change.
fn change_behind(alloc: Global, fault: &ChangeFault) -> Result<Text, OutOfMemory>
    ensures { IfOk result (λ said. said ≡ codes ": " ++ change_said fault.now) }
{
    let said = change_said(alloc, fault)?;
    joined(alloc, b": ", said.bytes())
}

// What is said of a feed.
fn line_said(alloc: Global, fault: &FeedFault) -> Result<Text, OutOfMemory>
    ensures { IfOk result (λ said. said ≡ line_said fault.now) }
{
    match fault {
        FeedFault::Cov(_, fault) => document_said(alloc, fault),
        FeedFault::Change(_, fault) => change_behind(alloc, fault),
        _ => Text::of(alloc, b""),
    }
}

// What is said of a reply.
fn fault_said(alloc: Global, fault: &FetchFault) -> Result<Text, OutOfMemory>
    ensures { IfOk result (λ said. said ≡ fault_said fault.now) }
{
    match fault {
        FetchFault::BadReply(place) => numbered(alloc, b": place ", *place as u128),
        FetchFault::NotData(_, code) => shown(alloc, code.bytes()),
        FetchFault::Cov(fault) => document_said(alloc, fault),
        _ => Text::of(alloc, b""),
    }
}

/// Explains why a text stands for no document, where that is asked for: the first check that fails, with its member, its place or
/// its counts.
pub fn explain_document(
    alloc: Global,
    why: bool,
    fault: &CovFault,
    explained: &mut Text,
) -> Result<(), OutOfMemory>
    requires { explained.old ≡ [] }
    ensures explained { OnOk result (explained.new ≡ document_said why fault.now) }
    ensures kept { OnErr result (explained.new ≡ explained.old) }
{
    if why {
        *explained = document_said(alloc, fault)?;
    }
    Ok(())
}

/// Explains why a feed isn't read, where that is asked for: the fault of the coverage, or of the change, of its line.
pub fn explain_feed(
    alloc: Global,
    why: bool,
    fault: &FeedFault,
    explained: &mut Text,
) -> Result<(), OutOfMemory>
    requires { explained.old ≡ [] }
    ensures explained { OnOk result (explained.new ≡ feed_explained why fault.now) }
    ensures kept { OnErr result (explained.new ≡ explained.old) }
{
    if why {
        *explained = line_said(alloc, fault)?;
    }
    Ok(())
}

/// Explains why no reply of data was read, where that is asked for: the place at which it breaks off, the code that its body
/// gives, or the fault of its document.
pub fn explain_reply(
    alloc: Global,
    why: bool,
    fault: &FetchFault,
    explained: &mut Text,
) -> Result<(), OutOfMemory>
    requires { explained.old ≡ [] }
    ensures explained { OnOk result (explained.new ≡ reply_explained why fault.now) }
    ensures kept { OnErr result (explained.new ≡ explained.old) }
{
    if why {
        *explained = fault_said(alloc, fault)?;
    }
    Ok(())
}
