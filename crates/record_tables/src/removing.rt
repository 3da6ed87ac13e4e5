ghost use Rattle.std.specs.Prelude.{◌≡◌};
ghost use Rattle.ctrl_model.specs.Numbered.{Table, with_removed};
ghost use Rattle.record_tables.specs.AfterChange.{without_numbers};

// A table of records that may lose one by its number.
pub(crate) trait Losing<R> {
    ghost table: { Self → Table R };

    // Removes the record that has the number, if one has it.
    fn lose(&mut self, number: u32)
        ensures { table self.new ≡ with_removed number (table self.old) };
}

// Removes the records of some numbers, where one is there.
pub(crate) fn lose_all<R, T: Losing<R>>(table: &mut T, gone: &[u32])
    ensures { T.table table.new ≡ without_numbers gone.now (T.table table.old) }
{
    'numbers: for number in gone {
        table.lose(*number);
    }
}
