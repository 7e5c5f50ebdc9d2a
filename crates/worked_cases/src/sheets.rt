// Printed sheets.
ghost use Rattle.worked_cases.specs.Sheet.{Columns, SheetsPrinted, SheetRooms};

// A number in its column.
#[tactic(auto, using(crate::proofs::Sheet::columns_listed))]
fn numbers_in_columns()
    ensures { Columns }
{}

// The lines of a sheet.
#[tactic(auto, using(crate::proofs::Sheet::sheets_printed))]
fn printed()
    ensures { SheetsPrinted }
{}

// What writing a sheet answers, and leaves in the buffer.
#[tactic(auto, using(crate::proofs::Sheet::sheet_rooms))]
fn rooms()
    ensures { SheetRooms }
{}
