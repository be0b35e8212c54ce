// Names in the order of a list, looked up in a map.
ghost use Rattle.std.specs.Prelude.{◌≡◌, ◌<◌, [], ◌∷◌, ◌++◌, None, length, option_map, option_and_then, unwrap_or, map, IfOk};
ghost use Rattle.serde_json.specs.Find.{as_str};
ghost use Rattle.serde_json.specs.View.{view};
ghost use Rattle.job_text.specs.Reading.{GivesOrFaults, IsFirstFault, ◌▹◌};
ghost use Rattle.job_text.specs.Fields.{is_name, range_unless, text_value};
ghost use Rattle.job_text.specs.declared.faults.JobFault.TheVariants.{UnknownName, DoubleName, Clash};
ghost use Rattle.job_readers.specs.Places.{name_place_in, reference_faults, reference_value, new_name_faults};
ghost use Rattle.job_readers.specs.GraphPart.{name_value};
ghost use Rattle.job_text.specs.Paths.{path_text};

use job_text::{JobFault, Path, TextErr, may_name, member, range, shape, text_in};
use serde_json::Value;
use spin_base::Memory;
use std::alloc::Global;
use std::collections::BTreeMap;
use std::hash::{FoldHasher, Hasher};
use std::marker::Model;

// So many slots there are for each name that is to come: most names then have one of their own.
const SLOTS: usize = 16;

// What short words are multiplied by, so that the slots of alike words are far apart: 2^64 by the golden ratio.
const SPREAD: u64 = 0x9e37_79b9_7f4a_7c15;

// The names of a list, in its order. A word of a name's bytes tells a slot, which has the place of the last name of this slot: most
// names are found there. A map has the places of all of them, so names of one slot cost a logarithm.
#[derive(Drop)]
pub(crate) struct Names<'a> {
    said: Vec<&'a str>,
    slots: Vec<u32>,
    places: BTreeMap<&'a str, u32>,
}

impl<'a> Model for Names<'a> {
    ghost use Rattle.std.specs.Prelude.{ℕ, List};
    ghost use Rattle.job_readers.specs.Indexed.{said_of, IsIndexed};

    ghost Value = { List (List ℕ) };

    ghost view = { said_of };

    ghost invariant = { IsIndexed };
}

impl<'a> Names<'a> {
    // No name, and slots for so many.
    pub(crate) fn new(alloc: Global, count: usize) -> Result<Names<'a>, Memory>
        ensures { IfOk result (λ names. names ≡ []) }
    {
        let slots = count.saturating_mul(SLOTS).saturating_add(1);
        Ok(Names {
            said: Vec::new(alloc),
            slots: vec![in alloc; 0u32; slots]?,
            places: BTreeMap::new(alloc),
        })
    }

    // The first place of a name.
    pub(crate) fn place(&self, name: &str) -> Option<u32>
        ensures { result ≡ name_place_in self.now name.now }
    {
        let at = self.slots[slot_of(name, self.slots.len())];
        if let Some(said) = self.said.get(at as usize) {
            if *said == name {
                return Some(at);
            }
        }
        self.places.get(name).copied()
    }

    // The names, and one more at the end.
    pub(crate) fn with(self, name: &'a str) -> Result<Names<'a>, Memory>
        requires { length self < 4294967295 }
        ensures { IfOk result (λ names. names ≡ self.entry ++ name.now ∷ []) }
    {
        let known = self.place(name).is_some();
        if known {
            let Names {
                mut said,
                slots,
                places,
            } = self;
            said.push(name)?;
            return Ok(Names {
                said,
                slots,
                places,
            });
        }
        self.with_new(name)
    }

    // The names, and at the end one more that is none of them.
    pub(crate) fn with_new(self, name: &'a str) -> Result<Names<'a>, Memory>
        requires few { length self < 4294967295 }
        requires new { name_place_in self name.now ≡ None }
        ensures { IfOk result (λ names. names ≡ self.entry ++ name.now ∷ []) }
    {
        let Names {
            mut said,
            mut slots,
            mut places,
        } = self;
        let count = said.len() as u32;
        said.push(name)?;
        let slot = slot_of(name, slots.len());
        slots[slot] = count;
        places.insert(name, count)?;
        Ok(Names {
            said,
            slots,
            places,
        })
    }
}

// The slot of a text, by its bytes: of 1 to 7 bytes these are one number, and else a word is made of them.
fn slot_of(name: &str, slots: usize) -> usize
    requires { 0 < slots }
    ensures { result < slots }
{
    let word = match name.as_bytes() {
        [a] => u64::from_le_bytes([1, *a, 0, 0, 0, 0, 0, 0]),
        [a, b] => u64::from_le_bytes([2, *a, *b, 0, 0, 0, 0, 0]),
        [a, b, c] => u64::from_le_bytes([3, *a, *b, *c, 0, 0, 0, 0]),
        [a, b, c, d] => u64::from_le_bytes([4, *a, *b, *c, *d, 0, 0, 0]),
        [a, b, c, d, e] => u64::from_le_bytes([5, *a, *b, *c, *d, *e, 0, 0]),
        [a, b, c, d, e, f] => u64::from_le_bytes([6, *a, *b, *c, *d, *e, *f, 0]),
        [a, b, c, d, e, f, g] => u64::from_le_bytes([7, *a, *b, *c, *d, *e, *f, *g]),
        bytes => {
            let mut hasher = FoldHasher::default();
            hasher.write(bytes);
            return hasher.finish() as usize % slots;
        }
    };
    (word.wrapping_mul(SPREAD) >> 32) as usize % slots
}

// The error of a name that refers to nothing.
pub(crate) fn unknown(alloc: Global, path: &Path<'_>) -> TextErr
    ensures { IsFirstFault result (UnknownName (path_text path.now) ∷ []) }
{
    match path.text(alloc) {
        Ok(path) => TextErr::Fault(JobFault::UnknownName(path)),
        Err(_) => TextErr::Memory,
    }
}

// The error of a text that is none of the names: it is no name, or a name that refers to nothing.
pub(crate) fn unplaced(alloc: Global, said: &str, path: &Path<'_>) -> TextErr
    ensures { IsFirstFault result (range_unless (is_name said.now) (path_text path.now)
        ▹ UnknownName (path_text path.now) ∷ []) }
{
    if may_name(said) {
        return unknown(alloc, path);
    }
    range(alloc, path)
}

// The error of a name that stands earlier.
fn double(alloc: Global, path: &Path<'_>) -> TextErr
    ensures { IsFirstFault result (DoubleName (path_text path.now) ∷ []) }
{
    match path.text(alloc) {
        Ok(path) => TextErr::Fault(JobFault::DoubleName(path)),
        Err(_) => TextErr::Memory,
    }
}

// The error of what an earlier item has already.
pub(crate) fn clash(alloc: Global, path: &Path<'_>) -> TextErr
    ensures { IsFirstFault result (Clash (path_text path.now) ∷ []) }
{
    match path.text(alloc) {
        Ok(path) => TextErr::Fault(JobFault::Clash(path)),
        Err(_) => TextErr::Memory,
    }
}

// The place of the name that a text is.
#[tactic(auto, using(crate::proofs::Firsts::firsts), unfolding(crate::specs::Places::reference_faults, crate::specs::Places::reference_value))]
pub(crate) fn reference(
    alloc: Global,
    v: Option<&Value>,
    path: &Path<'_>,
    names: &Names,
) -> Result<u32, TextErr>
    ensures read { GivesOrFaults (λ i. i) result
        (reference_faults names.now (path_text path.now) (option_map (λ d. view d.now) v.entry))
        (reference_value names.now (option_map (λ d. view d.now) v.entry)) }
    ensures below { IfOk result (λ i. i < length names.now) }
{
    let said = text_in(alloc, v, path)?;
    match names.place(said) {
        Some(i) => Ok(i),
        None => Err(unknown(alloc, path)),
    }
}

// The text that a value is.
pub(crate) fn said_text<'a>(v: Option<&'a Value>) -> Option<&'a str>
    ensures { option_map (λ s. s.now) result
        ≡ option_and_then as_str (option_map (λ d. view d.now) v.entry) }
{
    match v {
        Some(found) => found.as_str(),
        None => None,
    }
}

// A name that is none of those before it.
#[tactic(auto, using(crate::proofs::Firsts::firsts), unfolding(crate::specs::Places::new_name_faults))]
pub(crate) fn new_name<'a>(
    alloc: Global,
    v: Option<&'a Value>,
    path: &Path<'_>,
    before: &Names,
) -> Result<&'a str, TextErr>
    ensures { GivesOrFaults (λ s. s.now) result
        (new_name_faults before.now (path_text path.now) (option_map (λ d. view d.now) v.entry))
        (text_value (option_map (λ d. view d.now) v.entry)) }
{
    let said = text_in(alloc, v, path)?;
    if before.place(said).is_some() {
        return Err(double(alloc, path));
    }
    Ok(said)
}

// The name that an item says, and no text where it says none.
#[tactic(auto, unfolding(crate::specs::GraphPart::name_value))]
pub(crate) fn said_name<'a>(item: &'a Value) -> &'a str
    ensures { result.now ≡ name_value (view item.now) }
{
    match member(item, "name") {
        Some(name) => match name.as_str() {
            Some(said) => said,
            None => "",
        },
        None => "",
    }
}
