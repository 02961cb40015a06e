// A record of a file: its form, its call, and the step that it makes.
// Canvas, cells and labels stand side by side, as in crate canvas.
ghost use Rattle.std.specs.Prelude.{◌≡◌};
ghost use Rattle.ledger.specs.Outcomes.{given};
ghost use Rattle.records.specs.Complete.{complete_number};
ghost use Rattle.records.specs.Records.{CompleteAt};
ghost use Rattle.records.specs.Step.{step_in};
ghost use Rattle.records.specs.Steps.{record_state, record_taken};

use crate::calls::record_call;
use crate::complete::{Complete, complete_call, complete_kind, complete_size};
use form::fields::Part;
use form::kind::Kind;
use form::sizes::record_form;
use ledger::state::Canvas;
use refusals::refusal::Refusal;

// A record that has all its fields.
fn take_complete(
    kind: Complete,
    file: &[u8],
    at: usize,
    canvas: &mut Canvas,
    cells: &mut [u32],
    labels: &[u32],
) -> Result<usize, Refusal>
    requires { CompleteAt file.now at (complete_number kind) }
    ensures step { step_in result ≡ (record_taken (given canvas.old cells.old labels.now) file.now at).step }
    ensures state { given canvas.new cells.new labels.now ≡ record_state (given canvas.old cells.old labels.now) file.now at }
{
    let record = &file[at..]; // as in `complete_kind`, whose test then serves the reads
    complete_call(kind, &record[2..], &mut *canvas, &mut *cells, labels)?;
    Ok(at + 2 + complete_size(kind))
}

// The record whose first byte stands at a place: its call is made, or it is refused and changes nothing.
#[tactic(auto, using(crate::proofs::RecordSteps::header_within))]
pub fn take_record(
    file: &[u8],
    at: usize,
    canvas: &mut Canvas,
    cells: &mut [u32],
    labels: &mut [u32],
) -> Result<usize, Refusal>
    ensures step { step_in result ≡ (record_taken (given canvas.old cells.old labels.old) file.now at).step }
    ensures state { given canvas.new cells.new labels.new ≡ record_state (given canvas.old cells.old labels.old) file.now at }
{
    if let Some(kind) = complete_kind(file, at) {
        return take_complete(kind, file, at, &mut *canvas, &mut *cells, &*labels);
    }
    let end = record_form(file, at)?;
    let kind = Kind::try_from(file[at])?;
    let part = Part {
        map: file[at + 1],
        bytes: &file[at + 2..],
    };
    record_call(kind, part, &mut *canvas, &mut *cells, &mut *labels)?;
    Ok(end)
}
