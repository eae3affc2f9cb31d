// The row list: 79 rows, each with its tag, its maximum, its mandatory mark and its enclosing loop.
#![tactic(auto)]

ghost use Rattle.std.specs.Prelude.{◌≡◌};
ghost use Rattle.rows.specs.RowList.{row_at};

use rows::list::{LAST, Row};
use rows::tags::NO_TAG;

const ROWS: [Row; 79] = [
    Row(0, 1, true, 0), // 1 ST
    Row(1, 1, true, 0), // 2 BNR
    Row(2, 0, false, 0), // 3 REF
    Row(3, 0, false, 0), // 4 DTM
    Row(4, 0, false, 0), // 5 PID
    Row(5, 1, false, 0), // 6 MEA
    Row(3, 0, false, 6), // 7 DTM
    Row(2, 0, false, 6), // 8 REF
    Row(6, 1, false, 0), // 9 PWK
    Row(2, 0, false, 9), // 10 REF
    Row(3, 0, false, 9), // 11 DTM
    Row(7, 1, false, 0), // 12 N1
    Row(8, 2, false, 12), // 13 N2
    Row(9, 2, false, 12), // 14 N3
    Row(10, 1, false, 12), // 15 N4
    Row(2, 0, false, 12), // 16 REF
    Row(11, 0, false, 12), // 17 PER
    Row(12, 1, true, 0), // 18 HL
    Row(13, 1, false, 18), // 19 LIN
    Row(4, 0, false, 18), // 20 PID
    Row(14, 0, false, 18), // 21 PRS
    Row(15, 0, false, 18), // 22 CID
    Row(3, 0, false, 18), // 23 DTM
    Row(2, 0, false, 18), // 24 REF
    Row(16, 1, false, 18), // 25 CS
    Row(17, 0, false, 18), // 26 QTY
    Row(18, 1, false, 18), // 27 TMD
    Row(19, 1, false, 18), // 28 PSD
    Row(6, 0, false, 18), // 29 PWK
    Row(20, 1, false, 18), // 30 LM
    Row(21, 0, true, 30), // 31 LQ
    Row(5, 1, false, 18), // 32 MEA
    Row(3, 0, false, 32), // 33 DTM
    Row(2, 0, false, 32), // 34 REF
    Row(22, 1, false, 18), // 35 FA1
    Row(23, 0, true, 35), // 36 FA2
    Row(24, 1, false, 18), // 37 SPS
    Row(2, 0, false, 37), // 38 REF
    Row(19, 1, false, 37), // 39 PSD
    Row(5, 1, false, 37), // 40 MEA
    Row(3, 0, false, 40), // 41 DTM
    Row(2, 0, false, 40), // 42 REF
    Row(25, 1, false, 37), // 43 STA
    Row(3, 0, false, 43), // 44 DTM
    Row(2, 0, false, 43), // 45 REF
    Row(26, 1, false, 18), // 46 NCD
    Row(27, 0, false, 46), // 47 NTE
    Row(3, 0, false, 46), // 48 DTM
    Row(2, 0, false, 46), // 49 REF
    Row(17, 0, false, 46), // 50 QTY
    Row(28, 0, false, 46), // 51 AMT
    Row(5, 0, false, 46), // 52 MEA
    Row(29, 0, false, 46), // 53 RC
    Row(30, 1, false, 46), // 54 EFI
    Row(31, 1, true, 54), // 55 BIN
    Row(7, 1, false, 46), // 56 N1
    Row(8, 2, false, 56), // 57 N2
    Row(9, 2, false, 56), // 58 N3
    Row(10, 1, false, 56), // 59 N4
    Row(2, 0, false, 56), // 60 REF
    Row(11, 0, false, 56), // 61 PER
    Row(20, 1, false, 46), // 62 LM
    Row(21, 0, true, 62), // 63 LQ
    Row(32, 1, false, 46), // 64 NCA
    Row(27, 0, false, 64), // 65 NTE
    Row(3, 0, false, 64), // 66 DTM
    Row(2, 0, false, 64), // 67 REF
    Row(6, 1, false, 64), // 68 PWK
    Row(2, 0, false, 68), // 69 REF
    Row(3, 0, false, 68), // 70 DTM
    Row(7, 1, false, 64), // 71 N1
    Row(8, 2, false, 71), // 72 N2
    Row(9, 2, false, 71), // 73 N3
    Row(10, 1, false, 71), // 74 N4
    Row(2, 0, false, 71), // 75 REF
    Row(11, 0, false, 71), // 76 PER
    Row(20, 1, false, 64), // 77 LM
    Row(21, 0, true, 77), // 78 LQ
    Row(33, 1, true, 0), // 79 SE
];

// The row of that number, 1 to 79; for any other number a row that no tag has, as the definition `row_at` has it.
pub fn row_at(number: u8) -> Row
    ensures { result ≡ row_at number }
{
    if number == 0 || number > LAST {
        return Row(NO_TAG, 0, false, 0);
    }
    ROWS[number as usize - 1]
}
