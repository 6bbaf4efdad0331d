use crate::call::Call;
use crate::reply::Reply;
use table::Pair;

/// A call with what it is lent, its own pair records and its own buffer, and the place for its reply.
#[derive(Drop)]
pub struct Round<'a> {
    pub call: Call<'a>,
    pub records: Vec<Pair>,
    pub buffer: Vec<u8>,
    pub reply: Reply,
}
