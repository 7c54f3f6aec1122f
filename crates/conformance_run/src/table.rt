//! Tables of lines and their replies.

use event_lines::{RunFault, run_lines};
use std::alloc::Global;
use std::test::Fail;
use streams::{Reader, Writer};

/// A line and its reply.
pub(crate) type Row = (&'static str, &'static str);

/// The output of a run over this input, and how the run ends.
pub(crate) fn run_over(alloc: Global, input: &[u8]) -> (Result<(), RunFault>, Vec<u8>) {
    let mut source = Reader::new(input);
    let mut sink = Writer::new(Vec::new(alloc));
    let result = run_lines(alloc, &mut source, &mut sink);
    (result, sink.into_inner())
}

/// The lines of tables, one table behind the other, each with its end.
pub(crate) fn lines_of(alloc: Global, tables: &[&[Row]]) -> Result<String, Fail> {
    let mut text = String::new(alloc);
    for table in tables {
        for row in *table {
            text.push_str(row.0)?;
            text.push_str("\n")?;
        }
    }
    Ok(text)
}

/// The replies of these tables, one table after the other, each with its line end.
pub(crate) fn answers_of(alloc: Global, tables: &[&[Row]]) -> Result<String, Fail> {
    let mut text = String::new(alloc);
    for table in tables {
        for row in *table {
            text.push_str(row.1)?;
            text.push_str("\n")?;
        }
    }
    Ok(text)
}
