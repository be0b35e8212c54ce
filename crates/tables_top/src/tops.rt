// The top call.
ghost use Rattle.std.specs.Prelude.{◌≡◌, ◌⊎◌, Some, None, IfOk, IfErr, MatchResult, flat_map, length};
ghost use Rattle.run_report.specs.Refusals.{line_of as line_of_refusal};
ghost use Rattle.run_report.specs.declared.causes.Refusal.TheVariants.{Memory as NoMemory};
ghost use Rattle.spin_input.specs.Inputs.{reading_of};
ghost use Rattle.table_text.specs.Texts.{short_lines};
ghost use Rattle.tables_top.specs.Ending.{AreMadeTables, EndsTables, HasNoTables, IsSentOut, IsTold, outcome_status, sent_through, tables_status};
ghost use Rattle.tables_top.specs.Shorter.{AreShorter};

use crate::inputs::TablesInput;
use crate::outcomes::Outcome;
use crate::shorter::{has_long_table, shorter_tables};
use run_report::{OUT_OF_MEMORY, Refusal, line_of};
use spin_base::{Memory, Seq, Sink, Source, write_all};
use spin_input::read_input;
use std::alloc::Global;
use table_readers::Asked;
use table_text::{ShortTable, tables_text};

// The line where there are words.
const USAGE: &str = "usage: no words, and tables as JSON on standard input\n";

/// The status where a table has more entries than a router.
const TABLE_LONG: u8 = 8;

// Tables that were made, and their text.
#[derive(Drop)]
struct Made {
    tables: Seq<ShortTable>,
    text: Seq<u8>,
}

/// Shortens the tables that the source's bytes are, and writes them, or one line, to the sink. There are no words.
///
/// For each key that a row of a given table has, where the first that has it decides, the first entry of the new table that matches it
/// has the same route; or none matches it, and by default packets go on by that route, since the row tells by which link they come in,
/// and its route is the link opposite. Where `exact` is asked for, a key that no row of a given table has is matched by no entry of the new one. A table
/// is shortened until it has the target's rows, or no two can be joined; none gets longer. The whole text stands before its first byte
/// is written, and a refusal writes its line and nothing else.
///
/// Statuses: 0, the text was written; 1, there were words; 2, reading failed; 3, writing failed; 4, the bytes are no tables; 8, the
/// text was written, and a table has more entries than a router; 9, memory ran out.
pub fn minimise<S: Source, K: Sink>(
    alloc: Global,
    words: &[String],
    source: &mut S,
    sink: &mut K,
) -> Outcome
    ensures status { result.status ≡ outcome_status result.refusal result.tables }
    ensures ends { EndsTables (length words.now)
        (reading_of S.left S.faults source.old source.new)
        (sent_through K.written K.faults sink.old sink.new)
        result }
{
    if !words.is_empty() {
        return write_words(Refusal::Usage, USAGE, sink);
    }
    match made_of(alloc, source) {
        Ok(made) => write_text(made, sink),
        Err(refusal) => write_refusal(alloc, refusal, sink),
    }
}

// The shorter tables and their text, or why there are none.
fn made_of<S: Source>(alloc: Global, source: &mut S) -> Result<Made, Refusal>
    ensures made { IfOk result (λ made. AreMadeTables
        (reading_of S.left S.faults source.old source.new)
        made.tables made.text) }
    ensures err { IfErr result (HasNoTables (reading_of S.left S.faults source.old source.new)) }
{
    let input: TablesInput = read_input(alloc, source)?;
    match make(alloc, &input.asked) {
        Ok(made) => Ok(made),
        Err(Memory) => Err(Refusal::Memory),
    }
}

// The shorter tables and their text.
fn make(alloc: Global, asked: &Asked) -> Result<Made, Memory>
    ensures tables { IfOk result (λ made. AreShorter asked.now.target asked.now.exact asked.now.tables made.tables) }
    ensures text { IfOk result (λ made. made.text ≡ flat_map short_lines made.tables) }
{
    let tables = shorter_tables(alloc, asked.target, asked.exact, asked.tables.as_slice())?;
    let text = tables_text(alloc, tables.as_slice())?;
    Ok(Made { tables, text })
}

// Writes the whole text.
fn write_text<K: Sink>(made: Made, sink: &mut K) -> Outcome
    ensures status { result.status ≡ outcome_status result.refusal result.tables }
    ensures tables { result.tables ≡ Some made.tables }
    ensures sent { IsSentOut (sent_through K.written K.faults sink.old sink.new)
        made.text None result.refusal }
{
    let Made { tables, text } = made;
    let status = status_of(tables.as_slice());
    match write_all(sink, text.as_slice()) {
        Ok(()) => Outcome {
            status,
            refusal: None,
            tables: Some(tables),
        },
        Err(_) => Outcome {
            status: 3,
            refusal: Some(Refusal::WriteFault),
            tables: Some(tables),
        },
    }
}

// The status of tables that were written.
fn status_of(tables: &[ShortTable]) -> u8
    ensures { result ≡ tables_status (Some tables.now) }
{
    if has_long_table(tables) {
        TABLE_LONG
    } else {
        0
    }
}

// Writes the line of a refusal. Where there is no memory for it, that of want of memory is written.
fn write_refusal<K: Sink>(alloc: Global, refusal: Refusal, sink: &mut K) -> Outcome
    ensures status { result.status ≡ outcome_status result.refusal result.tables }
    ensures told { (IsTold (sent_through K.written K.faults sink.old sink.new)
        (line_of_refusal refusal) refusal result)
        ⊎ (IsTold (sent_through K.written K.faults sink.old sink.new)
        (line_of_refusal NoMemory) NoMemory result) }
{
    let line = line_of(alloc, &refusal);
    write_where_made(refusal, line, sink)
}

// Writes the line of a refusal where it was made, and that of want of memory exactly where there was none for it.
fn write_where_made<K: Sink>(
    refusal: Refusal,
    line: Result<Seq<u8>, Memory>,
    sink: &mut K,
) -> Outcome
    ensures status { result.status ≡ outcome_status result.refusal result.tables }
    ensures told { MatchResult line
        (λ text. IsTold (sent_through K.written K.faults sink.old sink.new) text refusal result)
        (λ _. IsTold (sent_through K.written K.faults sink.old sink.new)
        (line_of_refusal NoMemory) NoMemory result) }
{
    match line {
        Ok(line) => write_line(refusal, line.as_slice(), sink),
        Err(Memory) => write_words(Refusal::Memory, OUT_OF_MEMORY, sink),
    }
}

// Writes words, which tell a refusal.
fn write_words<K: Sink>(refusal: Refusal, words: &str, sink: &mut K) -> Outcome
    ensures status { result.status ≡ outcome_status result.refusal result.tables }
    ensures told { IsTold (sent_through K.written K.faults sink.old sink.new)
        words.now refusal result }
{
    write_line(refusal, words.as_bytes(), sink)
}

// Writes a line, which tells a refusal.
fn write_line<K: Sink>(refusal: Refusal, line: &[u8], sink: &mut K) -> Outcome
    ensures status { result.status ≡ outcome_status result.refusal result.tables }
    ensures told { IsTold (sent_through K.written K.faults sink.old sink.new)
        line.now refusal result }
{
    let refusal = match write_all(sink, line) {
        Ok(()) => refusal,
        Err(_) => Refusal::WriteFault,
    };
    Outcome {
        status: refusal.status(),
        refusal: Some(refusal),
        tables: None,
    }
}
