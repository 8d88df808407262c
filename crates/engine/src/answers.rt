// Answers as rows.
ghost use Rattle.std.specs.Prelude.{◌≡◌};
ghost use Rattle.engine.specs.Rows.{values, sizes_row, report_row, fault_row, row_of};

use crate::fault::Fault;
use crate::rows::AnswerRow;
use session::RunReport;
use verdict::Sizes;

impl From<Sizes> for AnswerRow {
    ghost from_gives = { λ s row. row ≡ sizes_row s };

    fn from(sizes: Sizes) -> AnswerRow {
        told(sizes.variables as u64, sizes.records as u64)
    }
}

impl From<RunReport> for AnswerRow {
    ghost from_gives = { λ r row. row ≡ report_row r };

    fn from(report: RunReport) -> AnswerRow {
        AnswerRow {
            stop: report.stop as u8,
            ..told(report.steps, report.entries as u64)
        }
    }
}

impl From<Fault> for AnswerRow {
    ghost from_gives = { λ f row. row ≡ fault_row f };

    fn from(fault: Fault) -> AnswerRow {
        let (layer, number, place) = match fault {
            Fault::Refused(refusal) => {
                (refusal.layer as u8, refusal.number, refusal.place as u64)
            }
            Fault::Memory => (7, 0, 0),
            Fault::NoCall(call) => (8, 0, u64::from(call)),
            Fault::NoRoom(calls) => (9, 0, calls as u64),
        };
        AnswerRow {
            layer,
            number,
            place,
            ..AnswerRow::default()
        }
    }
}

// Nothing was refused; two numbers, 0 where there are fewer.
pub(crate) fn told(first: u64, second: u64) -> AnswerRow
    ensures { result ≡ values first second }
{
    AnswerRow {
        first,
        second,
        ..AnswerRow::default()
    }
}

// The row of an answer.
pub(crate) fn row(answer: Result<AnswerRow, Fault>) -> AnswerRow
    ensures { result ≡ row_of answer }
{
    answer.unwrap_or_else(AnswerRow::from)
}
