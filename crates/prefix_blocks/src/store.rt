//! A store of many small lists.
//!
//! A list of 1 to 32 items stands in a block of 1, 2, 4, 8, 16 or 32 cells, the least of these that holds it. There is
//! a list of free blocks for each size, whose link stands in the first cell of a free block.
ghost use Rattle.std.specs.FinMap as map;

use std::alloc::{AllocError, Global};
use std::marker::Model;
use std::mem;

#[cfg(test)]
mod tests;

/// The number that names no block.
const NONE: u32 = u32::MAX;

#[derive(Drop)]
enum Cell<A> {
    /// The first item of a list.
    First(A),
    /// A later item of a list.
    Item(A),
    /// The first cell of a free block, with the number of the next free block of its size, or [`NONE`].
    Free(u32),
    /// Any other cell.
    Unused,
}

/// A store of many small lists, each of 1 to 32 items in a block of cells, which is named by a number.
///
/// A contract sees `lists`, the finite map from the numbers of blocks to their items, and `room`, how many cells can be
/// taken before memory is needed. There are fewer than 2^32 cells.
#[derive(Drop)]
pub struct Blocks<A> {
    cells: Vec<Cell<A>>,
    // The first free block of 2^k cells, for each k.
    free: [u32; 6],
}

impl<A> Model for Blocks<A> {
    ghost use Rattle.std.specs.Prelude.{◌-◌, ◌^◌, min};
    ghost use Rattle.std.specs.Vec.{vec_len, vec_capacity};
    ghost use Rattle.prefix_blocks.specs.Blocks.{BlocksView, coded_blocks};

    ghost Value = { BlocksView A };

    ghost coded = { coded_blocks A.code };

    ghost use Rattle.prefix_blocks.specs.Cells.{lists_of, IsSound};

    ghost view = { λ b. record {
      lists = lists_of b.cells.items;
      room = min (vec_capacity b.cells) (2 ^ 32 - 1) - vec_len b.cells;
    } };

    ghost invariant = { λ b. IsSound b.cells.items b.free };
}

ghost use Rattle.std.specs.Prelude.{◌≡◌, ◌≢◌, ◌⊎◌, ℕ, ◌+◌, ◌-◌, ◌≤◌, ◌<◌, ◌∷◌, ◌++◌, ◌^◌, []};
ghost use Rattle.std.specs.Prelude.{length, get_or, replicate, Some, None, slice_get};
ghost use Rattle.std.specs.List.{insert, remove};
ghost use Rattle.std.specs.Vec.{vec_len, vec_capacity};
ghost use Rattle.prefix_blocks.specs.Sizes.{order, size, cells_needed};
ghost use Rattle.prefix_blocks.specs.Cells.{demoted, promoted, laid, items_of, list_at, held, listed, part, with_part};
ghost use Rattle.prefix_blocks.specs.Cells.{IsSound, HasRegion, Holds, SameLists, HasCells, IsAllBut, IsPutIn, IsFreed};
ghost use Rattle.prefix_blocks.specs.Cells.{IsMoved, HasTaken, CanOutgrow, HasGrown, HasInserted, CanRelease};
ghost use Rattle.prefix_blocks.specs.Cells.{placed, AreUnused, IsLaid, HasAdded};

/// The order of the block of a list of this length: it has 2^order cells.
fn order_of(count: u32) -> u32
    requires { count ≤ 32 }
    ensures { result ≡ order count }
{
    match count {
        0 | 1 => 0,
        2 => 1,
        3 | 4 => 2,
        5..=8 => 3,
        9..=16 => 4,
        _ => 5,
    }
}

/// How many cells [`Blocks::insert`] takes for one more item in a list of this many items: none, or those of the block
/// of twice the size.
#[tactic(auto, unfolding(crate::specs::Sizes::cells_needed))]
pub fn cells_needed(count: u32) -> usize
    requires { count < 32 }
    ensures cells { result ≡ cells_needed count }
    ensures limit { result ≤ 32 }
{
    match count {
        0 => 1,
        1 | 2 | 4 | 8 | 16 => 2 * count as usize,
        _ => 0,
    }
}

/// How many cells the block of a list of this many items has, which is what [`Blocks::add`] takes.
pub fn block_size(count: u32) -> usize
    requires { count ≤ 32 }
    ensures size { result ≡ size count }
    ensures limit { result ≤ 32 }
{
    1 << order_of(count)
}

/// Fills a cell that is not used.
fn fill<A>(cell: &mut Cell<A>, content: Cell<A>)
    requires { cell.old ≡ Cell.Unused }
    ensures { cell.new ≡ content }
{
    match mem::replace(cell, content) {
        Cell::Unused => {}
        _ => unreachable!(),
    }
}

/// Makes the first item of a list a later one.
fn demote<A>(cell: &mut Cell<A>)
    ensures { cell.new ≡ demoted cell.old }
{
    match mem::replace(cell, Cell::Unused) {
        Cell::First(item) => fill(cell, Cell::Item(item)),
        other => fill(cell, other),
    }
}

/// Makes a later item of a list the first one.
fn promote<A>(cell: &mut Cell<A>)
    ensures { cell.new ≡ promoted cell.old }
{
    match mem::replace(cell, Cell::Unused) {
        Cell::Item(item) => fill(cell, Cell::First(item)),
        other => fill(cell, other),
    }
}

/// Moves the cells from `place` on up by one, over the last one, which is not used, and fills their place.
fn shift_in<A>(cells: &mut [Cell<A>], place: usize, content: Cell<A>)
    requires within { place < length cells.old }
    requires last { get_or cells.old (length cells.old - 1) Cell.Unused ≡ Cell.Unused }
    ensures { cells.new ++ Cell.Unused ∷ [] ≡ insert cells.old place content }
{
    let mut carried = content;
    for i in place..cells.len() {
        carried = mem::replace(&mut cells[i], carried);
    }
    match carried {
        Cell::Unused => {}
        _ => unreachable!(),
    }
}

/// Takes a cell out, and moves the cells behind it down by one. The last one is not used then.
fn shift_out<A>(cells: &mut [Cell<A>], place: usize) -> Cell<A>
    requires { place < length cells.old }
    ensures { insert cells.new place result ≡ cells.old ++ Cell.Unused ∷ [] }
{
    let mut carried = Cell::Unused;
    for i in (place..cells.len()).rev() {
        carried = mem::replace(&mut cells[i], carried);
    }
    carried
}

/// Stores an item at a place of the list in these cells, whose last one is not used.
fn put_in<A>(cells: &mut [Cell<A>], place: usize, item: A)
    requires within { place < length cells.old }
    requires held { IsAllBut cells.old }
    ensures { IsPutIn cells.old cells.new place item }
{
    if place == 0 {
        demote(&mut cells[0]);
        shift_in(cells, 0, Cell::First(item));
    } else {
        shift_in(cells, place, Cell::Item(item));
    }
}

/// Takes the item at a place of the list in these cells. The last one is not used then.
fn take_out<A>(cells: &mut [Cell<A>], place: usize) -> A
    requires within { place < length cells.old }
    requires held { cells.old ≡ laid (items_of cells.old) }
    ensures value { slice_get (items_of cells.old) place ≡ Some result }
    ensures cells { cells.new ≡ laid (remove (items_of cells.old) place) ++ Cell.Unused ∷ [] }
{
    let taken = shift_out(cells, place);
    if place == 0 {
        promote(&mut cells[0]);
    }
    taken.into_item()
}

/// Stores an item at a place of the list of this many items at `first`, behind which a cell is not used.
fn put_at<A>(cells: &mut [Cell<A>], first: usize, count: usize, place: usize, item: A)
    requires within { first + count < length cells.old }
    requires place { place ≤ count }
    requires held { IsAllBut (part cells.old first (count + 1)) }
    ensures { cells.new ≡ with_part cells.old first (count + 1)
        (laid (insert (items_of (part cells.old first (count + 1))) place item)) }
{
    put_in(&mut cells[first..first + count + 1], place, item);
}

/// Takes the item at a place of the list of this many items at `first`. Its last cell is not used then.
fn take_at<A>(cells: &mut [Cell<A>], first: usize, count: usize, place: usize) -> A
    requires within { first + count ≤ length cells.old }
    requires place { place < count }
    requires held { part cells.old first count ≡ laid (items_of (part cells.old first count)) }
    ensures value { slice_get (items_of (part cells.old first count)) place ≡ Some result }
    ensures cells { cells.new ≡ with_part cells.old first count
        (laid (remove (items_of (part cells.old first count)) place) ++ Cell.Unused ∷ []) }
{
    take_out(&mut cells[first..first + count], place)
}

/// A block of 2^order cells, none of which is used.
fn take_block<A>(cells: &mut Vec<Cell<A>>, free: &mut [u32; 6], order: u32) -> u32
    requires order { order < 6 }
    requires sound { IsSound cells.old.items free.old }
    requires room { HasCells cells.old (2 ^ order) }
    ensures taken { HasTaken cells.old.items cells.new.items free.new result (2 ^ order) }
    ensures len { vec_len cells.new ≤ vec_len cells.old + 2 ^ order }
    ensures capacity { vec_capacity cells.new ≡ vec_capacity cells.old }
{
    let start = free[order as usize];
    if start == NONE {
        return add_block(cells, 1 << order);
    }
    match mem::replace(&mut cells[start as usize], Cell::Unused) {
        Cell::Free(next) => free[order as usize] = next,
        _ => unreachable!(),
    }
    start
}

/// This many cells at the end of the store, none of which is used.
fn add_block<A>(cells: &mut Vec<Cell<A>>, count: u32) -> u32
    requires { HasCells cells.old count }
    ensures start { result ≡ vec_len cells.old }
    ensures cells { cells.new.items ≡ cells.old.items ++ replicate count Cell.Unused }
    ensures capacity { vec_capacity cells.new ≡ vec_capacity cells.old }
{
    let start = cells.len() as u32;
    for _ in 0..count {
        cells.push_reserved(Cell::Unused);
    }
    start
}

/// Gives a block of 2^order cells, none of which is used, to the free blocks of its size.
fn free_block<A>(cells: &mut [Cell<A>], free: &mut [u32; 6], start: u32, order: u32)
    requires order { order < 6 }
    requires region { HasRegion cells.old free.old start (2 ^ order) }
    requires empty { Holds cells.old start (2 ^ order) [] }
    ensures { IsFreed cells.old free.old cells.new free.new start (2 ^ order) }
{
    fill(&mut cells[start as usize], Cell::Free(free[order as usize]));
    free[order as usize] = start;
}

/// Moves this many cells to a place where none is used.
fn move_cells<A>(cells: &mut [Cell<A>], from: usize, to: usize, count: usize)
    requires from { from + count ≤ length cells.old }
    requires to { to + count ≤ length cells.old }
    requires apart { (from + count ≤ to) ⊎ (to + count ≤ from) }
    ensures { IsMoved cells.old cells.new from to count }
{
    for i in 0..count {
        cells.swap(from + i, to + i);
    }
}

/// Moves a list whose block is full to a block of twice the size, none of whose cells is used, and frees its block.
fn outgrow<A>(cells: &mut [Cell<A>], free: &mut [u32; 6], at: u32, to: u32, count: u32, order: u32)
    requires { CanOutgrow cells.old free.old at to count order }
    ensures grown { HasGrown cells.old cells.new free.new at count to }
    ensures len { length cells.new ≡ length cells.old }
{
    move_cells(cells, at as usize, to as usize, count as usize);
    free_block(cells, free, at, order);
}

/// A block with room for one more item of the list of this many items at `at`, which it holds.
fn grown<A>(cells: &mut Vec<Cell<A>>, free: &mut [u32; 6], at: u32, count: u32) -> u32
    requires few { count < 32 }
    requires sound { IsSound cells.old.items free.old }
    requires list { length (held cells.old.items at count) ≡ count }
    requires room { HasCells cells.old (cells_needed count) }
    ensures grown { HasGrown cells.old.items cells.new.items free.new at count result }
    ensures len { vec_len cells.new ≤ vec_len cells.old + cells_needed count }
    ensures capacity { vec_capacity cells.new ≡ vec_capacity cells.old }
{
    if count == 0 {
        return take_block(cells, free, 0);
    }
    let order = order_of(count);
    if order_of(count + 1) == order {
        return at;
    }
    let to = take_block(cells, free, order + 1);
    outgrow(cells, free, at, to, count, order);
    to
}

/// Stores an item at a place of the list of this many items at `at`, and answers the number of its block then.
fn insert_at<A>(
    cells: &mut Vec<Cell<A>>,
    free: &mut [u32; 6],
    at: u32,
    count: u32,
    place: usize,
    item: A,
) -> u32
    requires few { count < 32 }
    requires place { place ≤ count }
    requires sound { IsSound cells.old.items free.old }
    requires list { length (held cells.old.items at count) ≡ count }
    requires room { HasCells cells.old (cells_needed count) }
    ensures inserted { HasInserted cells.old.items cells.new.items free.new at count result place item }
    ensures len { vec_len cells.new ≤ vec_len cells.old + cells_needed count }
    ensures capacity { vec_capacity cells.new ≡ vec_capacity cells.old }
{
    let start = grown(cells, free, at, count);
    put_at(cells, start as usize, count as usize, place, item);
    start
}

/// The cell of an item at this place of its list.
fn placed<A>(place: usize, item: A) -> Cell<A>
    ensures { result ≡ placed place item }
{
    if place == 0 {
        Cell::First(item)
    } else {
        Cell::Item(item)
    }
}

/// Moves these items into the cells from `start` on, which are not used.
fn lay<A>(cells: &mut [Cell<A>], start: usize, items: &mut Vec<A>)
    requires within { start + vec_len items.old ≤ length cells.old }
    requires unused { AreUnused cells.old start (vec_len items.old) }
    ensures laid { IsLaid cells.old cells.new start items.old.items }
    ensures moved { items.new.items ≡ [] }
{
    for i in (0..items.len()).rev() {
        match items.pop() {
            Some(item) => fill(&mut cells[start + i], placed(i, item)),
            None => unreachable!(),
        }
    }
}

/// Stores these items as a list, and answers the number of its block.
fn add_list<A>(cells: &mut Vec<Cell<A>>, free: &mut [u32; 6], items: &mut Vec<A>) -> u32
    requires some { 0 < vec_len items.old }
    requires few { vec_len items.old ≤ 32 }
    requires sound { IsSound cells.old.items free.old }
    requires room { HasCells cells.old (size (vec_len items.old)) }
    ensures added { HasAdded cells.old.items cells.new.items free.new result items.old.items }
    ensures moved { items.new.items ≡ [] }
    ensures len { vec_len cells.new ≤ vec_len cells.old + size (vec_len items.old) }
    ensures capacity { vec_capacity cells.new ≡ vec_capacity cells.old }
{
    let start = take_block(cells, free, order_of(items.len() as u32));
    lay(cells, start as usize, items);
    start
}

/// Frees what a list of this many items does not need of its block, where it had one more before.
fn release<A>(cells: &mut [Cell<A>], free: &mut [u32; 6], at: u32, left: u32)
    requires { CanRelease cells.old free.old at left }
    ensures sound { IsSound cells.new free.new }
    ensures lists { SameLists cells.old cells.new }
    ensures len { length cells.new ≡ length cells.old }
{
    if left == 0 {
        free_block(cells, free, at, 0);
        return;
    }
    let order = order_of(left);
    if order_of(left + 1) != order {
        free_block(cells, free, at + left, order);
    }
}

/// Takes the item at a place of the list of this many items at `at`.
fn remove_at<A>(cells: &mut [Cell<A>], free: &mut [u32; 6], at: u32, count: u32, place: usize) -> A
    requires sound { IsSound cells.old free.old }
    requires list { length (held cells.old at count) ≡ count }
    requires place { place < count }
    ensures value { slice_get (held cells.old at count) place ≡ Some result }
    ensures sound { IsSound cells.new free.new }
    ensures list { list_at cells.new at ≡ listed (remove (held cells.old at count) place) }
    ensures others { (m : ℕ) → m ≢ at → list_at cells.new m ≡ list_at cells.old m }
    ensures len { length cells.new ≡ length cells.old }
{
    let item = take_at(cells, at as usize, count as usize, place);
    release(cells, free, at, count - 1);
    item
}

impl<A> Cell<A> {
    ghost use Rattle.std.specs.Prelude.{IsSome};
    ghost use Rattle.std.specs.Borrow.{Lends, sem};
    ghost use Rattle.prefix_blocks.specs.contracts.store.Cell.{the_row};
    ghost use Rattle.prefix_blocks.specs.Cells.{refilled, item_of};

    /// The item of a cell that has one.
    fn into_item(self) -> A
        requires { IsSome (item_of self) }
        ensures { item_of self ≡ Some result }
    {
        match self {
            Cell::First(item) | Cell::Item(item) => item,
            _ => unreachable!(),
        }
    }

    /// The item of a cell that has one, to read.
    fn item(&self) -> &A
        requires { IsSome (item_of self.now) }
        ensures { item_of self.now ≡ Some result.now }
    {
        match self {
            Cell::First(item) | Cell::Item(item) => item,
            _ => unreachable!(),
        }
    }

    /// The item of a cell that has one, for writing.
    fn item_mut(&mut self) -> &mut A
        requires { IsSome (item_of self.old) }
        ensures* lends { sem 𝓛 (Lends (the_row A.row) A.row self.entry result (refilled self.old)) }
        ensures value { item_of self.old ≡ Some result.now }
    {
        match self {
            Cell::First(item) | Cell::Item(item) => item,
            _ => unreachable!(),
        }
    }
}

impl<A> Blocks<A> {
    ghost use Rattle.std.specs.Prelude.{OnOk};
    ghost use Rattle.std.specs.Borrow.{sem};
    ghost use Rattle.prefix_blocks.specs.Blocks.{list_named, held_by, without, with_list};
    ghost use Rattle.prefix_blocks.specs.Lends.{lends_item};

    /// A store with no list. Takes no memory.
    pub fn new(alloc: Global) -> Self
        ensures { result.lists ≡ map.empty }
    {
        Blocks {
            cells: Vec::new(alloc),
            free: [NONE; 6],
        }
    }

    /// The item at a place of the list in the block `at`.
    pub fn item(&self, at: u32, place: usize) -> &A
        requires { place < length (list_named self.now.lists at) }
        ensures { slice_get (list_named self.now.lists at) place ≡ Some result.now }
    {
        self.cells[at as usize + place].item()
    }

    /// The item at a place of the list in the block `at`, for writing.
    pub fn item_mut(&mut self, at: u32, place: usize) -> &mut A
        requires { place < length (list_named self.old.lists at) }
        ensures* writes_back { sem 𝓛 (lends_item A.row self.entry at place result) }
        ensures value { slice_get (list_named self.old.lists at) place ≡ Some result.now }
    {
        self.cells[at as usize + place].item_mut()
    }

    /// Makes room for this many cells. Refused where memory is wanting, and where the store would have 2^32 cells.
    pub fn reserve(&mut self, cells: usize) -> Result<(), AllocError>
        ensures room { OnOk result (cells ≤ self.new.room) }
        ensures kept { self.old.room ≤ self.new.room }
        ensures lists { self.new.lists ≡ self.old.lists }
    {
        if cells > NONE as usize - self.cells.len() {
            return Err(AllocError);
        }
        self.cells.try_reserve(cells)
    }

    /// Stores an item at a place of the list of `count` items in the block `at`, and answers the number of its block
    /// then, which is another where the list outgrows its block. Takes no memory. A list of no items has no block, and
    /// `at` does not count.
    pub fn insert(&mut self, at: u32, count: u32, place: usize, item: A) -> u32
        requires few { count < 32 }
        requires place { place ≤ count }
        requires list { length (held_by self.old.lists at count) ≡ count }
        requires room { cells_needed count ≤ self.old.room }

        // No other list has the block that is answered.
        ensures lists { self.new.lists ≡
            map.insert (without self.old.lists at count) result (insert (held_by self.old.lists at count) place item) }
        ensures fresh { map.get (without self.old.lists at count) result ≡ None }
        ensures room { self.old.room ≤ self.new.room + cells_needed count }
    {
        insert_at(&mut self.cells, &mut self.free, at, count, place, item)
    }

    /// Stores these items, 1 to 32 of them, as a list, and answers the number of its block. None is left in `items`.
    /// Takes no memory.
    pub fn add(&mut self, items: &mut Vec<A>) -> u32
        requires some { 0 < vec_len items.old }
        requires few { vec_len items.old ≤ 32 }
        requires room { size (vec_len items.old) ≤ self.old.room }

        // No other list has the block that is answered.
        ensures lists { self.new.lists ≡ map.insert self.old.lists result items.old.items }
        ensures fresh { map.get self.old.lists result ≡ None }
        ensures room { self.old.room ≤ self.new.room + size (vec_len items.old) }
        ensures moved { items.new.items ≡ [] }
    {
        add_list(&mut self.cells, &mut self.free, items)
    }

    /// Takes the item at a place of the list of `count` items in the block `at`, which stays its block. Takes no memory.
    pub fn remove(&mut self, at: u32, count: u32, place: usize) -> A
        requires list { length (list_named self.old.lists at) ≡ count }
        requires place { place < count }
        ensures value { slice_get (list_named self.old.lists at) place ≡ Some result }
        ensures lists { self.new.lists ≡ with_list self.old.lists at (remove (list_named self.old.lists at) place) }
        ensures room { self.old.room ≤ self.new.room }
    {
        remove_at(&mut self.cells, &mut self.free, at, count, place)
    }
}
