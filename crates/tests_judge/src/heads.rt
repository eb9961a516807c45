//! The heads of the texts.

/// Writes an object, reads it, and ends with one more.
pub(crate) const FIRST: &str = "\
setup 1 1 1 R
function f(a)
  write \"x\", a
  let v = read \"x\"
  return v + 1
end
turns
turn submit 1 f(4)
turn go 1 0
turn go 1 2
turn end 1
";

/// What these turns come to.
pub(crate) const FIRST_REPORT: &str = "\
report
turn submit 1 f(4)
turn go 1 0
turn go 1 2
turn end 1
result 1 value 5
object \"x\" 4
end
";

/// Moves of money between objects.
pub(crate) const MOVES: &str = "\
setup 1 1 1 R
object \"a\" 10
object \"b\" 1
function move(from, to, n)
  let x = read from
  write from, x - n
  let y = read to
  write to, y + n
  return n
end
turns
";

/// A queue, of which one value stays, and one that is only popped.
pub(crate) const QUEUES: &str = "\
setup 1 1 1 R
function f()
  push \"q\", 1
  push \"q\", 2
  let v = pop \"q\"
  let w = pop \"none\"
  return v
end
turns
";

/// A transaction on a store name.
pub(crate) const TRANSACTIONS: &str = "\
setup 1 1 1 R
function f(n)
  begin x = \"s\"
  let good = commit \"s\" = n
  return good
end
turns
";

/// A transaction that reads a name and writes another.
pub(crate) const READERS: &str = "\
setup 1 1 1 R
function f(from, to)
  begin x = from
  let good = commit to = 1
  return good
end
turns
";

/// A parent, whose child doubles a number.
pub(crate) const CHILDREN: &str = "\
setup 1 1 1 R
function parent()
  push \"q\", 1
  let c = spawn child(4)
  let v = join c
  return v + 1
end
function child(n)
  return n * 2
end
turns
";

/// The smallest script, for turns that can't be done.
pub(crate) const SET: &str = "\
setup 1 1 1 R
function set(k, v)
  write k, v
  return v
end
turns
";
