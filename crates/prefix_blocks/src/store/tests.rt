ghost use Rattle.std.specs.Prelude.{◌≡◌, ◌<◌, ◌≤◌, [], length};
ghost use Rattle.std.specs.Option.{unwrap_or};
ghost use Rattle.prefix_blocks.specs.Cells.{list_at};
ghost use Rattle.prefix_blocks.specs.Blocks.{list_named};

use super::*;
use std::process::Abort;
use std::test::Fail;

impl<A> Cell<A> {
    ghost use Rattle.prefix_blocks.specs.Cells.{is_first, is_item};

    fn begins_list(&self) -> bool
        ensures { result ≡ is_first self.now }
    {
        matches!(self, Cell::First(_))
    }

    fn goes_on(&self) -> bool
        ensures { result ≡ is_item self.now }
    {
        matches!(self, Cell::Item(_))
    }
}

/// How many items the list has that begins at a cell; none where no list begins.
fn items_at<A>(cells: &[Cell<A>], at: usize) -> usize
    ensures { result ≡ length (unwrap_or (list_at cells.now at) []) }
{
    if at >= cells.len() {
        return 0;
    }
    if !cells[at].begins_list() {
        return 0;
    }
    for end in at + 1..cells.len() {
        if !cells[end].goes_on() {
            return end - at;
        }
    }
    cells.len() - at
}

fn count_of(blocks: &Blocks<u32>, at: u32) -> u32
    ensures count { result ≡ length (list_named blocks.now.lists at) }
    ensures few { result ≤ 32 }
{
    items_at(&blocks.cells, at as usize) as u32
}

/// Inserts into a list or removes from it, at a place that the random number tells.
fn change(blocks: &mut Blocks<u32>, at: u32, random: u32, grows: bool) -> Result<u32, AllocError> {
    let count = count_of(blocks, at);
    if grows {
        if count < 32 {
            blocks.reserve(32)?;
            return Ok(blocks.insert(at, count, (random % (count + 1)) as usize, random));
        }
    } else if count > 0 {
        let _item = blocks.remove(at, count, (random % count) as usize);
    }
    Ok(at)
}

/// Marks the cells of a block, and tells whether each is a cell of the store that was not marked.
fn mark(owned: &mut [bool], start: u32, size: u32) -> bool {
    let mut apart = true;
    for i in 0..size {
        match owned.get_mut(start as usize + i as usize) {
            Some(cell) => {
                if *cell {
                    apart = false;
                }
                *cell = true;
            }
            None => apart = false,
        }
    }
    apart
}

/// Marks the blocks of all lists, of the sizes that are said, and tells whether no cell is in two of them.
fn mark_lists(blocks: &Blocks<u32>, owned: &mut [bool]) -> bool {
    let mut apart = true;
    for start in 0..blocks.cells.len() as u32 {
        let count = count_of(blocks, start);
        if count > 0 {
            if !mark(owned, start, count.next_power_of_two()) {
                apart = false;
            }
        }
    }
    apart
}

/// Marks the free blocks of a size, and tells whether no cell of them is in another block.
fn mark_free(blocks: &Blocks<u32>, owned: &mut [bool], order: u32) -> bool
    requires { order < 6 }
{
    let mut next = blocks.free[order as usize];
    let mut apart = true;
    for _ in 0..blocks.cells.len() {
        match blocks.cells.get(next as usize) {
            Some(Cell::Free(link)) => {
                if !mark(owned, next, 1 << order) {
                    apart = false;
                }
                next = *link;
            }
            _ => return apart && next == NONE,
        }
    }
    apart
}

#[test]
fn each_cell_is_in_one_block(rt: HostRuntime) -> Result<(), Fail> {
    let mut blocks = Blocks::new(rt.alloc());
    let mut numbers = [NONE; 16];
    let mut random = 1_u32;
    for turn in 0..2000_u32 {
        random = random.wrapping_mul(1_664_525).wrapping_add(1_013_904_223);
        let number = &mut numbers[(random >> 20) as usize % 16];
        let grows = (random >> 8) % 8 < if turn < 1000 { 6 } else { 3 };
        *number = change(&mut blocks, *number, random >> 12, grows)?;
    }
    let mut owned = vec![in rt.alloc(); false; blocks.cells.len()]?;
    assert!(rt; mark_lists(&blocks, &mut owned), "the blocks of lists");
    for order in 0..6 {
        assert!(rt;
            mark_free(&blocks, &mut owned, order),
            "the free blocks of 2^{order} cells"
        );
    }
    assert!(rt; owned.iter().all(|cell| *cell), "no cell is lost");
    Ok(())
}
