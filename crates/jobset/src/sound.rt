// An accepted table. The ghost field holds what every such table keeps, so that no function that takes one has to ask for it.
ghost use Rattle.table.specs.Sound.{Sound};

use table::Table;

// No type of crate table can say it: `Table::new` hands out a table that is not sound.
#[derive(Clone, Copy)]
pub struct SoundTable<'a> {
    pub table: &'a Table,
    pub ghost sound: { Sound table.now },
}
