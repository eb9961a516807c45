//! Several LogBooks on one physical log, apart from any code: to each of them the log looks like its own.
//! Each function here has an empty body, and a law as its contract; the definitions are in `specs/`.
#![tactic(auto)]

ghost use Rattle.books_alone.specs.Laws.{
  OrderOfBook,
  LiveOfBook,
  ViewOfBook,
  ReadsOfBook,
  LocationOfBook,
  RecordOfBook,
  NothingIsHidden,
  NumbersOfBook,
  ContentsOfBooks,
  BooksSee,
  OpeningIsAlone,
  EventsAreAlone,
  BooksAreAlone,
  SharedAreOfLog,
  BooksAreApart,
};
ghost use Rattle.books_alone.specs.Rows.{TwoBooksRun, OwnCachesRun};

/// The order of a book's records is the book's part of the physical order.
pub fn order_of_book<X, Y>()
    ensures { OrderOfBook X Y }
{}

/// Each record of a book is live by the book's own records alone.
pub fn live_of_book<A>()
    ensures { LiveOfBook A }
{}

/// What an engine sees of a book is what it sees up to the book's own position.
pub fn view_of_book<A>()
    ensures { ViewOfBook A }
{}

/// A book's reads find what the physical ones find, in the book's numbers.
pub fn reads_of_book<A>()
    ensures { ReadsOfBook A }
{}

/// The seqnum of a book's place is that of the physical place that stands for it.
pub fn place_of_book<X, Y>()
    ensures { LocationOfBook X Y }
{}

/// What stands at a book's number is the record at the physical seqnum that stands for it.
pub fn record_of_book<X, Y>()
    ensures { RecordOfBook X Y }
{}

/// No record hides another from a book's reads.
pub fn nothing_is_hidden<A>()
    ensures { NothingIsHidden A }
{}

/// The lists of a book's numbers: how they grow, and how a number is found in them.
pub fn numbers_of_book<X>()
    ensures { NumbersOfBook X }
{}

/// What records hold plays no part in the order, in what an engine sees, and in reads.
pub fn contents_of_books<A, B>()
    ensures { ContentsOfBooks A B }
{}

/// What a book sees is its part of the log, at its own positions.
pub fn books_see()
    ensures { BooksSee }
{}

/// At the opening each book sees the opening.
pub fn opening_is_alone()
    ensures { OpeningIsAlone }
{}

/// **One event**: its book is answered and sees what it would alone, a cut, catch or restart is one to
/// every book, and no other book sees anything of it.
pub fn events_are_alone()
    ensures { EventsAreAlone }
{}

/// **Each book is alone**: after any events, each event of a book was answered as the book alone answers
/// it.
pub fn books_are_alone()
    ensures { BooksAreAlone }
{}

/// Cuts, catches and restarts are answered as by the log with the appends of all books.
pub fn shared_are_of_log()
    ensures { SharedAreOfLog }
{}

/// What a book is answered depends on no other book's events.
pub fn books_are_apart()
    ensures { BooksAreApart }
{}

/// Two books beside each other, computed.
pub fn two_books_run()
    ensures { TwoBooksRun }
{}

/// A book makes one auxiliary entry more than an engine keeps for it, and another book's entry stays:
/// computed.
pub fn own_caches_run()
    ensures { OwnCachesRun }
{}
