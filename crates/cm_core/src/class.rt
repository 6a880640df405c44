//! A class that is ready to be defined, for C.

ghost use Rattle.std.specs.Prelude.{◌≡◌, pos};
ghost use Rattle.cm_commands.specs.Prepare.{refusal_for};
ghost use Rattle.cm_commands.specs.Refusals.{refusal_number};
ghost use Rattle.cm_core.specs.Class.{explained, fault_told, spot_kind, spot_index};
ghost use Rattle.cm_core.specs.Class.{other_version_of, malformed_kind, malformed_at};

use crate::handle::Handle;
use crate::inner::Inner;
use crate::status::of_refusal;
use cm_commands::{BadClass, PrepareFault, Refusal, prepare};
use cm_rules::Spot;
use std::alloc::Global;

/// Why bytes are no class that keeps the rules.
#[repr(C)]
pub struct BadClassForC {
    /// 1 truncated, 2 trailing, 3 malformed, 4 a rule, 5 another version.
    pub kind: u32,
    /// The rule's number.
    pub rule: u32,
    /// 1 pool, 2 this, 3 super, 4 interface, 5 field, 6 method, 7 attribute.
    pub spot: u32,
    /// Trailing and malformed: a byte. A rule: the index at the spot. Another version: its numbers.
    pub at: u64,
}

// The kind of a spot, and the index there.
fn spot_numbers(spot: Spot) -> (u32, u16)
    ensures { (result.0 ≡ spot_kind spot) × (result.1 ≡ spot_index spot) }
{
    match spot {
        Spot::Pool(index) => (1, index),
        Spot::This => (2, 0),
        Spot::Super => (3, 0),
        Spot::Interface(at) => (4, at),
        Spot::Field(at) => (5, at),
        Spot::Method(at) => (6, at),
        Spot::Attribute(at) => (7, at),
    }
}

// The version of a class file whose bytes differ from those of version 52.0 at this byte first: its
// major number times 65,536, plus its minor one.
fn other_version(bytes: &[u8], at: usize) -> Option<u64>
    ensures { result ≡ other_version_of bytes.now at }
{
    if at < 4 || at > 7 || bytes.len() < 8 {
        return None;
    }
    let minor = 256 * u64::from(bytes[4]) + u64::from(bytes[5]);
    let major = 256 * u64::from(bytes[6]) + u64::from(bytes[7]);
    Some(65_536 * major + minor)
}

// The kind of malformed bytes, and the byte or the version.
fn malformed_numbers(bytes: &[u8], at: usize) -> (u32, u64)
    ensures { (result.0 ≡ malformed_kind (other_version_of bytes.now at))
        × (result.1 ≡ malformed_at at (other_version_of bytes.now at)) }
{
    match other_version(bytes, at) {
        Some(version) => (5, version),
        None => (3, at as u64),
    }
}

// Says why a class isn't taken.
fn explain(bytes: &[u8], bad: &BadClass, told: &mut BadClassForC)
    ensures { told.new ≡ explained bytes.now bad.now }
{
    let (kind, rule, spot, at) = match *bad {
        BadClass::Truncated => (1, 0, 0, 0),
        BadClass::Trailing(at) => (2, 0, 0, at as u64),
        BadClass::Malformed(at) => {
            let (kind, at) = malformed_numbers(bytes, at);
            (kind, 0, 0, at)
        }
        BadClass::Rule(broken) => {
            let (spot, index) = spot_numbers(broken.spot);
            (4, u32::from(broken.rule.number()), spot, u64::from(index))
        }
    };
    told.kind = kind;
    told.rule = rule;
    told.spot = spot;
    told.at = at;
}

// The number for bytes that aren't prepared as a class.
fn of_prepare_fault(bytes: &[u8], fault: PrepareFault, bad: &mut BadClassForC) -> i32
    ensures status { result ≡ pos (refusal_number (refusal_for fault)) }
    ensures bad { bad.new ≡ fault_told bytes.now bad.old fault }
{
    if let PrepareFault::BadClass(what) = &fault {
        explain(bytes, what, bad);
    }
    of_refusal(&Refusal::from(fault))
}

/// Reads and judges a class file, and lays its record.
#[unsafe(no_mangle)]
pub extern "C" fn cmcore_prepare(
    alloc: Global,
    bytes: &[u8],
    prepared: &mut Handle,
    bad: &mut BadClassForC,
) -> i32 {
    match prepare(alloc, bytes) {
        Ok(class) => prepared.fill(alloc, Inner::Prepared(class)),
        Err(fault) => of_prepare_fault(bytes, fault, bad),
    }
}
