// The whole input.
ghost use Rattle.std.specs.Prelude.{◌≡◌, ◌+◌, ◌-◌, ◌<◌, ◌≤◌, ◌++◌, ◌↔◌, ℕ, List, []};
ghost use Rattle.std.specs.Prelude.{Some, Ok, Err, true, false, length, OnOk, IfOk, IfErr, vec_len};
ghost use Rattle.prefix_model.specs.Spelling.{IsBytes};
ghost use Rattle.prefix_io.specs.Causes.{Rose};
ghost use Rattle.prefix_app.specs.Compacted.{max_input};
ghost use Rattle.prefix_app.specs.Steps.{IsReadStatus};
ghost use Rattle.prefix_app.specs.Told.{ReadsAll, TakesThen, WhereTold};

use crate::status::Status;
use prefix_io::Source;
use std::alloc::{AllocError, Global};

/// The most bytes of an input.
const MAX_INPUT: usize = 1 << 30;

/// The most bytes of one read.
const PIECE: usize = 65536;

/// Reads the input to its end, but no further than one byte past the most that an input may have.
pub(crate) fn read_all<S: Source>(alloc: Global, input: &mut S) -> Result<Vec<u8>, Status>
    ensures whole { IfOk result (λ all. ReadsAll (S.left input.old) (S.left input.new) all.items) }
    ensures within { IfOk result (λ all. vec_len all ≤ max_input) }
    ensures bytes { IfOk result (λ all. IsBytes all.items) }
    ensures taken { TakesThen (S.left input.old) (S.left input.new) (λ taken _.
        (length taken ≤ max_input + 1) × ((result ≡ Err Status.TooLong) ↔ (length taken ≡ max_input + 1))) }
    ensures fault { result ≡ Err Status.ReadFault → Rose (S.faults input.old) (S.faults input.new) }
    ensures causes { IfErr result IsReadStatus }
{
    let mut buf = new_buffer(alloc)?;
    let mut all = Vec::new(alloc);
    loop {
        if !read_piece(input, buf.as_mut_slice(), &mut all)? {
            return Ok(all);
        }
    }
}

fn new_buffer(alloc: Global) -> Result<Vec<u8>, AllocError>
    ensures { IfOk result (λ buf. vec_len buf ≡ 65536) }
{
    vec![in alloc; 0; PIECE]
}

/// Reads once, behind what was read so far, and answers whether more may follow.
fn read_piece<S: Source>(input: &mut S, buf: &mut [u8], all: &mut Vec<u8>) -> Result<bool, Status>
    requires buffer { 0 < length buf.old }
    requires within { vec_len all.old ≤ max_input }
    ensures taken { TakesThen (S.left input.old) (S.left input.new) (λ taken _.
        (vec_len all.old + length taken ≤ max_input + 1)
        × ((result ≡ Err Status.TooLong) ↔ (vec_len all.old + length taken ≡ max_input + 1))
        × OnOk result (all.new.items ≡ all.old.items ++ taken)) }
    ensures more { IfOk result (λ more. more ≡ true → (vec_len all.old < vec_len all.new) × (vec_len all.new ≤ max_input)) }
    ensures end { IfOk result (λ more. more ≡ false → (all.new ≡ all.old) × ReadsAll (S.left input.old) (S.left input.new) []) }
    ensures bytes { OnOk result (IsBytes all.new.items) }
    ensures fault { result ≡ Err Status.ReadFault → Rose (S.faults input.old) (S.faults input.new) }
    ensures kept { OnOk result (S.faults input.new ≡ S.faults input.old) }
    ensures causes { IfErr result IsReadStatus }
{
    let room = MAX_INPUT + 1 - all.len();
    let size = buf.len().min(room);
    let Ok(count) = input.read(&mut buf[..size]) else {
        return Err(Status::ReadFault);
    };
    if count == 0 {
        return Ok(false);
    }
    if count == room {
        return Err(Status::TooLong);
    }
    all.extend_from_slice(&buf[..count])?;
    Ok(true)
}
