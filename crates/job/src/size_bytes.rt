// The size of a drawing in a record.
ghost use Rattle.std.specs.Prelude.{◌≡◌};
ghost use Rattle.model.specs.Records as records;

use grid::Size;

// Rows and columns, two bytes each, high byte first.
pub fn size_bytes(size: &Size) -> [u8; 4]
    ensures { result ≡ records.size_bytes size.now.rows size.now.columns }
{
    // Both numbers fit, as is proved: `try_from` would answer a Result that is always Ok.
    let [rows_high, rows_low] = (size.rows as u16).to_be_bytes();
    let [columns_high, columns_low] = (size.columns as u16).to_be_bytes();
    [rows_high, rows_low, columns_high, columns_low]
}
