//! What the records of a table are.
ghost use Rattle.edr_csv.specs.Tables.{TablesAreUnique};
ghost use Rattle.edr_csv.specs.Rows.{WrittenValuesAreRead};

/// Some bytes have one list of records.
pub fn tables_are_unique()
    ensures { TablesAreUnique }
{}

/// What is written of a document reads back as its records.
pub fn written_values_are_read()
    ensures { WrittenValuesAreRead }
{}
