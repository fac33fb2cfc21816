// What a caller may ask of a table memory: loop limits, quantization matrices.
#![tactic(auto)]

ghost use Rattle.std.specs.Prelude.{◌≡◌};
ghost use Rattle.queries.specs.Orders.{as_number};
ghost use Rattle.table_queries.specs.Setup.{table_limit, matrix_into, as_matrix, leaving};

use bitstream::End as Behind;
use queries::NumberAnswer;

// A quantization matrix stands in the slice that was lent; there is no such matrix; or the number of the refusal.
#[derive(Clone, Copy)]
pub enum MatrixAnswer {
    Is,
    Absent,
    Refused(u32),
}

// The loop limit of a qi, by the setup of a table memory.
pub fn loop_limit(table: &[u8], qi: u64) -> NumberAnswer
    ensures { result ≡ as_number (table_limit table.now qi) }
{
    if table.len() != setup::TABLE_BYTES {
        return NumberAnswer::Refused(bitstream::WRONG_LENGTH);
    }
    let answer = setup::load_table(table);
    let place = answer.place;
    match place {
        Behind::Refused(_, _) => NumberAnswer::Refused(bitstream::NOT_GENUINE),
        Behind::At(_) => {
            if qi < 64 {
                let limits = answer.setup.limits;
                let limit = limits[qi as usize] as u64;
                return NumberAnswer::Is(limit);
            }
            NumberAnswer::Absent
        }
    }
}

// The quantization matrix of a type (0 intra, 1 inter), a plane and a qi, in natural order, by the setup of a table memory.
pub fn matrix(table: &[u8], qti: u64, plane: u64, qi: u64, out: &mut [u16]) -> MatrixAnswer
    ensures value { result ≡ as_matrix (matrix_into out.old table.now qti plane qi) }
    ensures out_after { out.new ≡ leaving out.old (matrix_into out.old table.now qti plane qi) }
{
    if out.len() != 64 {
        return MatrixAnswer::Refused(bitstream::WRONG_LENGTH);
    }
    if table.len() != setup::TABLE_BYTES {
        return MatrixAnswer::Refused(bitstream::WRONG_LENGTH);
    }
    let answer = setup::load_table(table);
    let place = answer.place;
    match place {
        Behind::Refused(_, _) => MatrixAnswer::Refused(bitstream::NOT_GENUINE),
        Behind::At(_) => {
            if (qti < 2) & (plane < 3) & (qi < 64) {
                let parameters = answer.setup.parameters;
                matrices::matrix(
                    table,
                    parameters,
                    qti as usize,
                    plane as usize,
                    qi as usize,
                    out,
                );
                return MatrixAnswer::Is;
            }
            MatrixAnswer::Absent
        }
    }
}
