// The text of a report.
ghost use Rattle.std.specs.Prelude.{◌≡◌, ℕ, List, ◌<◌, ◌/◌, ◌^◌, take, [], ◌++◌, ◌∷◌, ◌+◌, OnOk, IfOk, codes, decimal, slice_get};
ghost use Rattle.std.specs.List.{flat_map};
ghost use Rattle.mesh_core.specs.declared.places.Place.TheVariants.{InQueue, Hand, CoreQueue};
ghost use Rattle.run_report.specs.Named.{named_delivery, vertex_name_of};
ghost use Rattle.run_report.specs.ReportText.{report_text, listed_text, row_total, word, hex, payload_word, place_line, keys_line, row_line, table_head, table_lines, did_word, event_front, event_line, event_lines, got_line, dump_line, wait_line, end_line, out_letters, port_letters, dir_letters};

use crate::digits::{route_digits, word_digits};
use crate::fronts::EventFront;
use crate::named::NamedDeliveries;
use crate::reports::Report;
use itoa::Buffer;
use mesh_core::{Did, Place};
use spin_base::{
    Block, Chip, ChipTable, Delivery, Dir, DumpRec, Entry, Memory, Name, Out, Port, Route, Seq,
    Spot,
};
use std::alloc::Global;

// How many bytes of memory are taken at once for each line of an event or a delivery.
const LINE_ROOM: usize = 32;

/// The text of a report: one line an item, each ended by a line feed, its words one space apart.
///
/// The lines are, in this order: `place VERTEX X Y CORE`, `keys NET KEY MASK`, `table X Y N` with N lines
/// `KEY MASK ROUTE`, `event I moved` or `event I idle`, `got VERTEX PACKET KEY PAYLOAD`, `dump X Y OUT PACKET`, `wait PACKET at X Y PLACE`, and
/// `end delivered D dumped U waiting W unsent N`. Keys, masks and payloads are 8 hexadecimal digits, routes 6, other
/// numbers decimal; `-` stands for no payload.
///
/// # Errors
///
/// `Memory` where memory runs out.
pub fn text_of(alloc: Global, report: &Report) -> Result<Seq<u8>, Memory>
    ensures { IfOk result (λ text. text ≡ report_text report.now) }
{
    let lines = report.did.len().saturating_add(report.delivered.len());
    let mut text = Vec::with_capacity(alloc, lines.saturating_mul(LINE_ROOM))?;
    put_listed(
        &mut text,
        report.placed.as_slice(),
        report.keys.as_slice(),
        report.tables.as_slice(),
    )?;
    put_events(&mut text, report.did.as_slice())?;
    put_gots(&mut text, &report.delivered)?;
    put_each(&mut text, report.dumped.as_slice())?;
    put_each(&mut text, report.waiting.as_slice())?;
    put_end(&mut text, report)?;
    Ok(Seq::from_vec(text))
}

// Puts the lines of vertices, nets and tables at the end.
fn put_listed(
    text: &mut Vec<u8>,
    placed: &[(Name, Spot)],
    keys: &[(Name, Block)],
    tables: &[ChipTable],
) -> Result<(), Memory>
    ensures { OnOk result (text.new.items
        ≡ text.old.items
        ++ (flat_map place_line placed.now ++ flat_map keys_line keys.now
        ++ flat_map table_lines tables.now)) }
{
    put_each(text, placed)?;
    put_each(text, keys)?;
    put_each(text, tables)
}

// The lines `place`, `keys` and `table` of `text_of`, and as the last line `end rows R` with the number of rows of all
// tables.
pub(crate) fn listed_text(
    alloc: Global,
    placed: &[(Name, Spot)],
    keys: &[(Name, Block)],
    counted: CountedTables,
) -> Result<Seq<u8>, Memory>
    ensures { IfOk result (λ text. text
        ≡ listed_text placed.now keys.now counted.entry.tables.now) }
{
    let mut text = Vec::new(alloc);
    put_listed(&mut text, placed, keys, counted.tables)?;
    put(&mut text, "end rows ")?;
    put_number(&mut text, row_total(counted), b'\n')?;
    Ok(Seq::from_vec(text))
}

// Tables whose rows are no more than a number of 64 bits tells.
#[derive(Clone, Copy)]
pub(crate) struct CountedTables<'a> {
    pub(crate) tables: &'a [ChipTable],
    pub(crate) ghost few: { row_total tables.now < 2 ^ 64 },
}

// The number of rows of all tables.
pub(crate) fn row_total(counted: CountedTables) -> u64
    ensures { result ≡ row_total counted.entry.tables.now }
{
    counted
        .tables
        .iter()
        .map(|table| table.entries.len() as u64)
        .sum()
}

// What a report tells in lines.
trait Told {
    ghost lines: { Self → List ℕ };

    // Puts the lines at the end.
    fn tell(&self, text: &mut Vec<u8>) -> Result<(), Memory>
        ensures { OnOk result (text.new.items ≡ text.old.items ++ lines self.now) };
}

// Puts the lines of each at the end.
#[tactic(auto, using(crate::proofs::Gathering::put_all, crate::proofs::Gathering::put_more))]
fn put_each<T: Told>(text: &mut Vec<u8>, items: &[T]) -> Result<(), Memory>
    ensures { OnOk result (text.new.items ≡ text.old.items ++ flat_map T.lines items.now) }
{
    for item in items {
        item.tell(text)?;
    }
    Ok(())
}

impl Told for (Name, Spot) {
    ghost use Rattle.run_report.specs.ReportText.{place_line};

    ghost lines = { place_line };

    fn tell(&self, text: &mut Vec<u8>) -> Result<(), Memory> {
        put(text, "place ")?;
        put(text, self.0.as_str())?;
        put_byte(text, b' ')?;
        put_chip(text, self.1.chip)?;
        put_number(text, u64::from(self.1.core), b'\n')
    }
}

impl Told for (Name, Block) {
    ghost use Rattle.run_report.specs.ReportText.{keys_line};

    ghost lines = { keys_line };

    fn tell(&self, text: &mut Vec<u8>) -> Result<(), Memory> {
        put(text, "keys ")?;
        put(text, self.0.as_str())?;
        put_byte(text, b' ')?;
        put_word(text, self.1.key, b' ')?;
        put_word(text, self.1.mask, b'\n')
    }
}

impl Told for ChipTable {
    ghost use Rattle.run_report.specs.ReportText.{table_lines};

    ghost lines = { table_lines };

    fn tell(&self, text: &mut Vec<u8>) -> Result<(), Memory> {
        put_table(text, self)
    }
}

/// Puts the lines of a table at the end: `table X Y N`, and a line `KEY MASK ROUTE` for each of its N rows.
pub fn put_table(text: &mut Vec<u8>, table: &ChipTable) -> Result<(), Memory>
    ensures { OnOk result (text.new.items ≡ text.old.items ++ table_lines table.now) }
{
    put_head(text, table)?;
    put_each(text, table.entries.as_slice())
}

fn put_head(text: &mut Vec<u8>, table: &ChipTable) -> Result<(), Memory>
    ensures { OnOk result (text.new.items ≡ text.old.items ++ table_head table.now) }
{
    put(text, "table ")?;
    put_chip_and_count(text, table.chip, table.entries.len() as u64)
}

/// Puts a chip, and how many there are of what is told of it, at the end of a line.
pub fn put_chip_and_count(text: &mut Vec<u8>, chip: Chip, count: u64) -> Result<(), Memory>
    ensures { OnOk result (text.new.items ≡ text.old.items
        ++ (decimal chip.x ++ 32 ∷ (decimal chip.y ++ 32 ∷ (decimal count ++ 10 ∷ [])))) }
{
    put_chip(text, chip)?;
    put_number(text, count, b'\n')
}

impl Told for Entry {
    ghost use Rattle.run_report.specs.ReportText.{row_line};

    ghost lines = { row_line };

    fn tell(&self, text: &mut Vec<u8>) -> Result<(), Memory> {
        put_word(text, self.key, b' ')?;
        put_word(text, self.mask, b' ')?;
        put_route(text, self.route)
    }
}

fn put_events(text: &mut Vec<u8>, answers: &[Did]) -> Result<(), Memory>
    ensures { OnOk result (text.new.items
        ≡ text.old.items ++ event_lines answers.now) }
{
    let mut front = EventFront::of(0);
    for (before, did) in answers.iter().enumerate() {
        front.advance(before);
        put_event(text, &front, before + 1, *did)?;
    }
    Ok(())
}

// Puts the line of an event at the end. The front is that of its number.
#[tactic(auto, using(crate::proofs::LastDigits::line_put))]
fn put_event(text: &mut Vec<u8>, front: &EventFront, number: usize, did: Did) -> Result<(), Memory>
    requires front { take front.now.len front.now.bytes ≡ event_front (number / 10) }
    ensures { OnOk result (text.new.items ≡ text.old.items ++ event_line number did) }
{
    put_front(text, front)?;
    put_did(text, (number % 10) as u8, did)?;
    Ok(())
}

// Puts what the lines of ten events begin with at the end. The whole array goes to the end, and what is no part of the
// front is taken away: so few instructions copy it, whatever its length.
#[tactic(auto, using(crate::proofs::LastDigits::cut_back))]
fn put_front(text: &mut Vec<u8>, front: &EventFront) -> Result<(), Memory>
    ensures { OnOk result (text.new.items
        ≡ text.old.items ++ take front.now.len front.now.bytes) }
{
    let end = text.len() + usize::from(front.len);
    text.extend_from_slice(&front.bytes)?;
    text.truncate(end);
    Ok(())
}

// Puts the last digit of an event's number at the end, and whether the event was enabled.
fn put_did(text: &mut Vec<u8>, digit: u8, did: Did) -> Result<(), Memory>
    requires { digit < 10 }
    ensures { OnOk result (text.new.items
        ≡ text.old.items ++ (48 + digit) ∷ (32 ∷ (did_word did ++ 10 ∷ []))) }
{
    let digit = b'0' + digit;
    match did {
        Did::Moved => text.extend_from_slice(&[digit, b' ', b'm', b'o', b'v', b'e', b'd', b'\n'])?,
        Did::Idle => text.extend_from_slice(&[digit, b' ', b'i', b'd', b'l', b'e', b'\n'])?,
    }
    Ok(())
}

#[tactic(auto, using(crate::proofs::Gathering::put_at))]
fn put_gots(text: &mut Vec<u8>, delivered: &NamedDeliveries) -> Result<(), Memory>
    ensures { OnOk result (text.new.items
        ≡ text.old.items ++ flat_map got_line delivered.now) }
{
    let placed = delivered.placed.as_slice();
    let deliveries = delivered.deliveries.as_slice();
    for delivery in deliveries {
        put_got(text, placed, delivery)?;
    }
    Ok(())
}

fn put_got(text: &mut Vec<u8>, placed: &[(Name, Spot)], delivery: &Delivery) -> Result<(), Memory>
    ensures { OnOk result (text.new.items
        ≡ text.old.items ++ got_line (named_delivery placed.now delivery.now)) }
{
    put(text, "got ")?;
    put(text, name_at(placed, delivery.vertex))?;
    put_byte(text, b' ')?;
    put_number(text, u64::from(delivery.copy.packet), b' ')?;
    put_word(text, delivery.copy.key, b' ')?;
    put_payload(text, delivery.copy.payload)
}

// The name of a vertex, and no letter where there is no such vertex.
fn name_at<'a>(placed: &'a [(Name, Spot)], vertex: u32) -> &'a str
    ensures { result.now ≡ vertex_name_of (slice_get placed.now vertex) }
{
    match placed.get(vertex as usize) {
        Some((name, _)) => name.as_str(),
        None => "",
    }
}

impl Told for DumpRec {
    ghost use Rattle.run_report.specs.ReportText.{dump_line};

    ghost lines = { dump_line };

    fn tell(&self, text: &mut Vec<u8>) -> Result<(), Memory> {
        put(text, "dump ")?;
        put_chip(text, self.chip)?;
        put_out(text, self.out, b' ')?;
        put_number(text, u64::from(self.copy.packet), b'\n')
    }
}

impl Told for (u32, Place) {
    ghost use Rattle.run_report.specs.ReportText.{wait_line};

    ghost lines = { wait_line };

    fn tell(&self, text: &mut Vec<u8>) -> Result<(), Memory> {
        let packet = self.0;
        match self.1 {
            Place::InQueue(chip, port) => put_wait_in(text, packet, chip, port),
            Place::Hand(chip, out) => put_wait_hand(text, packet, chip, out),
            Place::CoreQueue(chip, core) => put_wait_core(text, packet, chip, core),
        }
    }
}

fn put_wait_in(text: &mut Vec<u8>, packet: u32, chip: Chip, port: Port) -> Result<(), Memory>
    ensures { OnOk result (text.new.items
        ≡ text.old.items ++ wait_line (packet, InQueue chip port)) }
{
    put_waiting(text, packet, chip)?;
    put(text, "in ")?;
    put(text, port_letters(port))?;
    put(text, "\n")
}

fn put_wait_hand(text: &mut Vec<u8>, packet: u32, chip: Chip, out: Out) -> Result<(), Memory>
    ensures { OnOk result (text.new.items
        ≡ text.old.items ++ wait_line (packet, Hand chip out)) }
{
    put_waiting(text, packet, chip)?;
    put(text, "hand ")?;
    put_out(text, out, b'\n')
}

fn put_wait_core(text: &mut Vec<u8>, packet: u32, chip: Chip, core: u8) -> Result<(), Memory>
    ensures { OnOk result (text.new.items
        ≡ text.old.items ++ wait_line (packet, CoreQueue chip core)) }
{
    put_waiting(text, packet, chip)?;
    put(text, "core ")?;
    put_number(text, u64::from(core), b'\n')
}

// Puts what a line on a waiting copy begins with at the end: the word, the packet, and the chip.
fn put_waiting(text: &mut Vec<u8>, packet: u32, chip: Chip) -> Result<(), Memory>
    ensures { OnOk result (text.new.items
        ≡ text.old.items
        ++ (codes "wait " ++ decimal packet ++ codes " at " ++ decimal chip.x ++ 32 ∷
        decimal chip.y ++ 32 ∷ [])) }
{
    put(text, "wait ")?;
    put_number(text, u64::from(packet), b' ')?;
    put(text, "at ")?;
    put_chip(text, chip)
}

// Puts an output at the end, and a byte after it.
fn put_out(text: &mut Vec<u8>, out: Out, after: u8) -> Result<(), Memory>
    ensures { OnOk result (text.new.items ≡ text.old.items ++ out_letters out ++ after ∷ []) }
{
    match out {
        Out::Link(link) => {
            put(text, link_letters(link))?;
            put_byte(text, after)
        }
        Out::Core(core) => {
            put(text, "c")?;
            put_number(text, u64::from(core), after)
        }
    }
}

fn put_end(text: &mut Vec<u8>, report: &Report) -> Result<(), Memory>
    ensures { OnOk result (text.new.items ≡ text.old.items ++ end_line report.now) }
{
    put(text, "end")?;
    put_count(text, " delivered ", report.delivered.len() as u64)?;
    put_count(text, " dumped ", report.dumped.len() as u64)?;
    put_count(text, " waiting ", report.waiting.len() as u64)?;
    put_count(text, " unsent ", report.unsent as u64)?;
    put(text, "\n")?;
    Ok(())
}

// Puts words and a number at the end.
fn put_count(text: &mut Vec<u8>, words: &str, count: u64) -> Result<(), Memory>
    ensures { OnOk result (text.new.items ≡ text.old.items ++ (words.now ++ decimal count)) }
{
    put(text, words)?;
    put_decimal(text, count)
}

// Puts a number at the end, and a byte after it.
pub(crate) fn put_number(text: &mut Vec<u8>, number: u64, after: u8) -> Result<(), Memory>
    ensures { OnOk result (text.new.items ≡ text.old.items ++ (decimal number ++ after ∷ [])) }
{
    put_decimal(text, number)?;
    put_byte(text, after)
}

// Puts a number at the end.
fn put_decimal(text: &mut Vec<u8>, number: u64) -> Result<(), Memory>
    ensures { OnOk result (text.new.items ≡ text.old.items ++ decimal number) }
{
    let mut buffer = Buffer::new();
    put(text, buffer.format(number))
}

// Puts a chip's numbers at the end, a space after each.
fn put_chip(text: &mut Vec<u8>, chip: Chip) -> Result<(), Memory>
    ensures { OnOk result (text.new.items
        ≡ text.old.items ++ (decimal chip.x ++ 32 ∷ (decimal chip.y ++ 32 ∷ []))) }
{
    put_number(text, u64::from(chip.x), b' ')?;
    put_number(text, u64::from(chip.y), b' ')
}

// Puts eight hexadecimal digits at the end, and a byte after them.
fn put_word(text: &mut Vec<u8>, number: u32, after: u8) -> Result<(), Memory>
    ensures { OnOk result (text.new.items ≡ text.old.items ++ (word number ++ after ∷ [])) }
{
    let digits = word_digits(number, after);
    text.extend_from_slice(&digits)?;
    Ok(())
}

// Puts the six hexadecimal digits of a route at the end, and a line feed.
fn put_route(text: &mut Vec<u8>, route: Route) -> Result<(), Memory>
    ensures { OnOk result (text.new.items ≡ text.old.items ++ (hex 6 route.bits ++ 10 ∷ [])) }
{
    let digits = route_digits(route.bits);
    text.extend_from_slice(&digits)?;
    Ok(())
}

// Puts a payload at the end, and a line feed.
fn put_payload(text: &mut Vec<u8>, payload: Option<u32>) -> Result<(), Memory>
    ensures { OnOk result (text.new.items
        ≡ text.old.items ++ (payload_word payload ++ 10 ∷ [])) }
{
    match payload {
        Some(payload) => put_word(text, payload, b'\n'),
        None => put(text, "-\n"),
    }
}

/// Puts words at the end.
pub fn put(text: &mut Vec<u8>, words: &str) -> Result<(), Memory>
    ensures { OnOk result (text.new.items ≡ text.old.items ++ words.now) }
{
    text.extend_from_slice(words.as_bytes())?;
    Ok(())
}

// Puts a byte at the end.
fn put_byte(text: &mut Vec<u8>, byte: u8) -> Result<(), Memory>
    ensures { OnOk result (text.new.items ≡ text.old.items ++ byte ∷ []) }
{
    text.push(byte)?;
    Ok(())
}

fn port_letters(port: Port) -> &'static str
    ensures { result.now ≡ port_letters port }
{
    match port {
        Port::Link(link) => link_letters(link),
        Port::Local => "L",
    }
}

fn link_letters(link: Dir) -> &'static str
    ensures { result.now ≡ dir_letters link }
{
    match link {
        Dir::East => "E",
        Dir::NorthEast => "NE",
        Dir::North => "N",
        Dir::West => "W",
        Dir::SouthWest => "SW",
        Dir::South => "S",
    }
}
