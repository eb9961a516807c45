use boki_queue::QueueCache;
use boki_txn::TxnCache;
use book_api::Book;
use hm_switch::SwitchView;
use lb_base::Mode;
use obj_store::ObjStore;

/// What attempts run on: a book and an object store, and for each engine what it keeps of queues, transactions and switches.
#[derive(Drop)]
pub struct Parts {
    pub book: Book,
    pub store: ObjStore,
    pub queues: Vec<QueueCache>,
    pub txns: Vec<TxnCache>,
    pub switches: Vec<SwitchView>,
    /// The book's first mode.
    pub first: Mode,
    /// The first engine whose logged writes hold their value, if any.
    pub newer: Option<u32>,
}
