//! What `help` tells. This file is written by `tools/make_guide.py` from `docs/MACHINE.md`, `docs/REFUSALS.md` and
//! `docs/MISTAKES.md`.

/// The entries, an empty line between two.
pub const GUIDE: &str = r#"help
  A line of JSON is a request. These are the commands; help and a name says more of each:
    add_category add_location add_part retire_part add_line drop_line add_substitute drop_substitute
      found add remove count transfer split merge serialise set_status install uninstall disassemble
      reinstate order order_line issue_order receive allocate_sale ship return_item close_order
      cancel_order build issue_build hold_build cancel_build outputs complete_output cancel_output
      scrap_output allocate_build auto_allocate complete_build consume release
  help commands says of each what it does, help flags what the flags of a part are for.
  help refusals lists the words by which a request is refused, help faults those of a line
  that can't be read, and help mistakes what mends what. quit or Ctrl-D ends the run.

commands
  add_category: a category
  add_location: a location
  add_part: a part
  retire_part: the part is retired
  add_line: a line
  drop_line: the line and its substitutes go
  add_substitute: a substitute
  drop_substitute: it goes
  found: without serials a new item at the location, else one of a single piece for each, in their
    order; all Okay; a Found for each
  add: the item is larger; one Found
  remove: one with a serial goes off as removed; else it is smaller, and gone at 0; one Written
  count: one with a serial that is counted 0 goes off as counted, with its content, and a Written
    for each node; else the difference is a Found or a Written, and nothing where there is none
  transfer: less than the whole is cut off first, as a new item; that, or the whole, goes to the
    location, with its content; Cut where it was cut, Moved
  split: a new item beside it; one Cut
  merge: each is poured into into, in the order of the list; a Poured for each
  serialise: a piece is cut off for each serial, in their order; a Cut for each
  set_status: the item has that status; one Marked
  install: less than the whole is cut off first, as a new item; that, or the whole with its content,
    lies in the parent; Cut where it was cut, Installed
  uninstall: it comes out to the location, with its content; one TakenOut
  disassemble: what lies directly in it comes out to the location, in order of number, each with its
    own content; then the item goes off as disassembled; a TakenOut for each, and one Written
  reinstate: it comes back to the location, with its content; a Found for each node
  order: an order, pending
  order_line: a line, of which nothing is done
  issue_order: it is in progress
  receive: new items as by found, of the line's part; so much more of the line is done; a Received
    for each
  allocate_sale: an allocation
  ship: for each of its allocations, in order of number: less than the item has then is cut off
    first, as a new item; that, or the whole with its content, is sent. So much more of the line is
    done, and the allocations go. A Cut where it was cut, and a Shipped for each node
  return_item: it comes back to the location, with its content, and is itself marked as returned; a
    Returned for each node, and one Marked
  close_order: it is complete
  cancel_order: it is cancelled, and its allocations go
  build: a build, pending, of which nothing is done
  issue_build: it is in production
  hold_build: it is on hold
  cancel_build: it is cancelled, its allocations go and what was spent on it, and each of its
    outputs is gone, in order of number
  outputs: new items as by found, of the build's part, as its outputs; no entry
  complete_output: it comes to the location. For each of its allocations, in order of number: less
    than the item has then is cut off first, as a new item; that, or the whole with its content,
    lies in it. The allocations go, and so much more of the build is done. Built, and then for each
    of them a Cut where it was cut, and an Installed
  cancel_output: its allocations go, and it is gone; no entry
  scrap_output: its allocations go, and it goes off as scrapped; Built, with its place until then,
    and Written
  allocate_build: an allocation
  auto_allocate: what untracked lines lack is allocated from what is free, as above: for optional
    lines too where optional is said, and from substitutes too where substitutes is; an allocation
    for each amount that isn't 0
  complete_build: for each of its allocations, in order of number: less than the item has then is
    cut off first, as a new item; that, or the whole with its content, is used up. The allocations
    go and what was spent on it, and it is complete. A Cut where it was cut, and a Consumed for each
    node
  consume: less than the item has is cut off first, as a new item; that, or the whole with its
    content, is used up. The allocation goes, and so much more was spent on its line: in a row under
    the next number where there was none. A Cut where it was cut, and a Consumed for each node
  release: the allocation goes

add_category
  Fields:
    name: text
    parent?: category
  Refused as NoSuch, NameTaken (a category under this parent has the name), Full.
  Does: a category.
  Example: {"do":"add_category","day":"2030-01-02","name":"A"}

add_location
  Fields:
    name: text
    parent?: location
  Refused as NoSuch, NameTaken (a location under this parent has the name), Full.
  Does: a location.
  Example: {"do":"add_location","day":"2030-01-02","name":"A"}

add_part
  Fields:
    name: text
    category?: a category
    template?: part
    flags: words
  Refused as NoSuch, NameTaken (any part has the name), WrongFlag (the template isn't flagged
    template, or virtual with a flag besides component), Retired (the template), TooDeep (its chain
    would have more than 4 parts), Full.
  Does: a part.
  Example: {"do":"add_part","day":"2030-01-02","name":"A","flags":["component"]}

retire_part
  Fields:
    part: a part
  Refused as NoSuch, Retired (already).
  Does: the part is retired.
  Example: {"do":"retire_part","day":"2030-01-02","part":1}

add_line
  Fields:
    assembly: part
    component: part
    quantity: number
    optional: yes
    consumable: yes
    inherited: yes
    variants: yes
  Refused as NoSuch, BadNumber (not 1 to 1,000,000,000), WrongFlag (the assembly isn't flagged
    assembly, or the component isn't flagged component, or is virtual on a line that isn't
    consumable), Retired (either), InUse (the assembly or a variant of it has an open build), Cycle,
    Full.
  Does: a line.
  Example: {"do":"add_line","day":"2030-01-02","assembly":1,"component":1,"quantity":1}

drop_line
  Fields:
    line: a line
  Refused as NoSuch, InUse (as above).
  Does: the line and its substitutes go.
  Example: {"do":"drop_line","day":"2030-01-02","line":1}

add_substitute
  Fields:
    line: a line
    part: a part
  Refused as NoSuch, WrongFlag (not flagged component, or virtual), Retired, InUse (as above, or the
    line fits the part already), Cycle, Full.
  Does: a substitute.
  Example: {"do":"add_substitute","day":"2030-01-02","line":1,"part":1}

drop_substitute
  Fields:
    substitute: a substitute
  Refused as NoSuch, InUse (as above).
  Does: it goes.
  Example: {"do":"drop_substitute","day":"2030-01-02","substitute":1}

found
  Fields:
    part: a part
    location: a location
    quantity: number
    batch?: text
    serials?: list
  Refused as NoSuch, BadNumber (the quantity, or more than 1,000 serials), WrongFlag (the part is
    virtual, or has serials and isn't trackable), Retired, SerialCount (more or fewer serials than
    pieces), SerialTaken (one stands twice in the list or is held in the family), Full.
  Does: without serials a new item at the location, else one of a single piece for each, in their
    order; all Okay; a Found for each.
  Example: {"do":"found","day":"2030-01-02","part":1,"location":1,"quantity":1}

add
  Fields:
    item: a item
    quantity: number
  Refused as NoSuch, BadNumber, NotLoose (the item isn't at a location), Serialised (it has a
    serial), TooLarge (above 1,000,000,000 together), Full.
  Does: the item is larger; one Found.
  Example: {"do":"add","day":"2030-01-02","item":1,"quantity":1}

remove
  Fields:
    item: a item
    quantity: number
  Refused as NoSuch, BadNumber, NotLoose, HasContent (an item lies in it), Short (it has less),
    Allocated (less of it is free), Full.
  Does: one with a serial goes off as removed; else it is smaller, and gone at 0; one Written.
  Example: {"do":"remove","day":"2030-01-02","item":1,"quantity":1}

count
  Fields:
    item: a item
    quantity: number
  Refused as NoSuch, BadNumber (above 1,000,000,000), NotLoose, Serialised (with a serial, and
    counted above 1), Allocated (more of it is allocated), Full.
  Does: one with a serial that is counted 0 goes off as counted, with its content, and a Written for
    each node; else the difference is a Found or a Written, and nothing where there is none.
  Example: {"do":"count","day":"2030-01-02","item":1,"quantity":1}

transfer
  Fields:
    item: a item
    location: a location
    quantity: number
  Refused as NoSuch, BadNumber, NotLoose, Short, Allocated (less is free, and it isn't the whole),
    Full.
  Does: less than the whole is cut off first, as a new item; that, or the whole, goes to the
    location, with its content; Cut where it was cut, Moved.
  Example: {"do":"transfer","day":"2030-01-02","item":1,"location":1,"quantity":1}

split
  Fields:
    item: a item
    quantity: number
  Refused as NoSuch, BadNumber, NotLoose, Serialised, Short (it hasn't more), Allocated, Full.
  Does: a new item beside it; one Cut.
  Example: {"do":"split","day":"2030-01-02","item":1,"quantity":1}

merge
  Fields:
    into: item
    items: items
  Refused as NoSuch, BadNumber (none, or more than 100), Mismatch (a number twice, into among them,
    or another part, batch or status), NotLoose, Serialised (into or any), Allocated (some of one
    that is poured), TooLarge, Full.
  Does: each is poured into into, in the order of the list; a Poured for each.
  Example: {"do":"merge","day":"2030-01-02","into":1,"items":[1,2]}

serialise
  Fields:
    item: a item
    quantity: number
    serials: list
  Refused as NoSuch, BadNumber (the quantity, or more than 1,000 serials), WrongFlag (its part isn't
    trackable), NotLoose, Serialised, Short, Allocated, SerialCount, SerialTaken, Full.
  Does: a piece is cut off for each serial, in their order; a Cut for each.
  Example: {"do":"serialise","day":"2030-01-02","item":1,"quantity":1,"serials":"1-3"}

set_status
  Fields:
    item: a item
    status: word
  Refused as NoSuch, NotLoose, Allocated (some of it is, and stock in that status isn't
    allocatable), Full.
  Does: the item has that status; one Marked.
  Example: {"do":"set_status","day":"2030-01-02","item":1,"status":"Damaged"}

install
  Fields:
    item: a item
    parent: item
    quantity: number
  Refused as NoSuch (the item or the parent), BadNumber, SelfInside (the parent is within the item),
    Unfit (the item's part may not be installed in the parent's), NotLoose (the item, or the
    parent's root isn't at a location), NotSerialised (the parent has no serial), Unavailable (the
    item's status isn't allocatable), Short, Allocated, TooDeep (the parent's depth and the item's
    height are above 16 together), Full.
  Does: less than the whole is cut off first, as a new item; that, or the whole with its content,
    lies in the parent; Cut where it was cut, Installed.
  Example: {"do":"install","day":"2030-01-02","item":1,"parent":1,"quantity":1}

uninstall
  Fields:
    item: a item
    location: a location
  Refused as NoSuch, WrongState (it lies in no item), NotLoose (its root isn't at a location), Full.
  Does: it comes out to the location, with its content; one TakenOut.
  Example: {"do":"uninstall","day":"2030-01-02","item":1,"location":1}

disassemble
  Fields:
    item: a item
    location: a location
  Refused as NoSuch, NotLoose, NotSerialised, Allocated (some of it), Full.
  Does: what lies directly in it comes out to the location, in order of number, each with its own
    content; then the item goes off as disassembled; a TakenOut for each, and one Written.
  Example: {"do":"disassemble","day":"2030-01-02","item":1,"location":1}

reinstate
  Fields:
    item: a item
    location: a location
  Refused as NoSuch, WrongState (its own place isn't off the books), Full.
  Does: it comes back to the location, with its content; a Found for each node.
  Example: {"do":"reinstate","day":"2030-01-02","item":1,"location":1}

order
  Fields:
    side: word
    partner: text
  Refused as Full.
  Does: an order, pending.
  Example: {"do":"order","day":"2030-01-02","side":"sale","partner":"A"}

order_line
  Fields:
    order: a order
    part: a part
    quantity: number
  Refused as NoSuch, BadNumber, WrongFlag (the part isn't flagged purchaseable for a purchase, or
    salable for a sale, or is virtual), Retired, WrongState (the order is complete or cancelled),
    Full.
  Does: a line, of which nothing is done.
  Example: {"do":"order_line","day":"2030-01-02","order":1,"part":1,"quantity":1}

issue_order
  Fields:
    order: a order
  Refused as NoSuch, WrongState (it isn't pending).
  Does: it is in progress.
  Example: {"do":"issue_order","day":"2030-01-02","order":1}

receive
  Fields:
    line: order's line
    location: a location
    quantity: number
    batch?: text
    serials?: list
  Refused as NoSuch, BadNumber, WrongFlag (there are serials and the line's part isn't trackable),
    WrongState (the order isn't in progress), Mismatch (it is a sale), OverNeed (more than is left
    of the line), SerialCount, SerialTaken, Full.
  Does: new items as by found, of the line's part; so much more of the line is done; a Received for
    each.
  Example: {"do":"receive","day":"2030-01-02","line":1,"location":1,"quantity":1}

allocate_sale
  Fields:
    line: order's line
    item: a item
    quantity: number
  Refused as NoSuch, BadNumber, WrongState (the order isn't in progress), Mismatch (it is a
    purchase), Unfit (the item is of another part than the line's), NotLoose, Unavailable (its
    status isn't allocatable), Allocated (less of it is free), OverNeed (more than the line wants
    besides what is done and allocated), Full.
  Does: an allocation.
  Example: {"do":"allocate_sale","day":"2030-01-02","line":1,"item":1,"quantity":1}

ship
  Fields:
    order: a order
  Refused as NoSuch, WrongState (it isn't in progress), Mismatch (it is a purchase), Short (nothing
    is allocated for it), Full.
  Does: for each of its allocations, in order of number: less than the item has then is cut off
    first, as a new item; that, or the whole with its content, is sent. So much more of the line is
    done, and the allocations go. A Cut where it was cut, and a Shipped for each node.
  Example: {"do":"ship","day":"2030-01-02","order":1}

return_item
  Fields:
    item: a item
    location: a location
  Refused as NoSuch, WrongState (its own place isn't with a customer), Full.
  Does: it comes back to the location, with its content, and is itself marked as returned; a
    Returned for each node, and one Marked.
  Example: {"do":"return_item","day":"2030-01-02","item":1,"location":1}

close_order
  Fields:
    order: a order
  Refused as NoSuch, WrongState (it isn't in progress), Short (not all of one of its lines is done).
  Does: it is complete.
  Example: {"do":"close_order","day":"2030-01-02","order":1}

cancel_order
  Fields:
    order: a order
  Refused as NoSuch, WrongState (it is complete or cancelled).
  Does: it is cancelled, and its allocations go.
  Example: {"do":"cancel_order","day":"2030-01-02","order":1}

build
  Fields:
    part: a part
    quantity: number
  Refused as NoSuch, BadNumber, WrongFlag (the part isn't flagged assembly), Retired, Full.
  Does: a build, pending, of which nothing is done.
  Example: {"do":"build","day":"2030-01-02","part":1,"quantity":1}

issue_build
  Fields:
    build: a build
  Refused as NoSuch, WrongState (it is neither pending nor on hold).
  Does: it is in production.
  Example: {"do":"issue_build","day":"2030-01-02","build":1}

hold_build
  Fields:
    build: a build
  Refused as NoSuch, WrongState (it is neither pending nor in production).
  Does: it is on hold.
  Example: {"do":"hold_build","day":"2030-01-02","build":1}

cancel_build
  Fields:
    build: a build
  Refused as NoSuch, WrongState (it isn't open).
  Does: it is cancelled, its allocations go and what was spent on it, and each of its outputs is
    gone, in order of number.
  Example: {"do":"cancel_build","day":"2030-01-02","build":1}

outputs
  Fields:
    build: a build
    quantity: number
    batch?: text
    serials?: list
  Refused as NoSuch, BadNumber (the quantity, or more than 1,000 serials), WrongFlag (there are
    serials and the build's part isn't trackable), WrongState (the build isn't in production),
    NotSerialised (there are no serials and its part has a tracked line), OverNeed (more than is
    left of the build besides what is done and what is at its output), SerialCount, SerialTaken,
    Full.
  Does: new items as by found, of the build's part, as its outputs; no entry.
  Example: {"do":"outputs","day":"2030-01-02","build":1,"quantity":1}

complete_output
  Fields:
    output: item
    location: a location
  Refused as NoSuch, WrongState (it isn't an output of a build in production), Short (less is
    allocated for it than it needs, of a tracked line that isn't optional), TooDeep (an item that is
    allocated for it is more than 15 high), Full.
  Does: it comes to the location. For each of its allocations, in order of number: less than the
    item has then is cut off first, as a new item; that, or the whole with its content, lies in it.
    The allocations go, and so much more of the build is done. Built, and then for each of them a
    Cut where it was cut, and an Installed.
  Example: {"do":"complete_output","day":"2030-01-02","output":1,"location":1}

cancel_output
  Fields:
    output: item
  Refused as NoSuch, WrongState (as above).
  Does: its allocations go, and it is gone; no entry.
  Example: {"do":"cancel_output","day":"2030-01-02","output":1}

scrap_output
  Fields:
    output: item
  Refused as NoSuch, WrongState (as above), Full.
  Does: its allocations go, and it goes off as scrapped; Built, with its place until then, and
    Written.
  Example: {"do":"scrap_output","day":"2030-01-02","output":1}

allocate_build
  Fields:
    build: a build
    line: a line
    item: a item
    quantity: number
    output?: item
  Refused as NoSuch, BadNumber, WrongState (the build is neither pending nor in production, or the
    output isn't one of this build's), Unfit (the line isn't one of the build's part, is consumable,
    is tracked and no output is named, or is untracked and one is, or doesn't fit the item's part),
    NotLoose, Unavailable (its status isn't allocatable), Allocated (less of it is free), OverNeed
    (more than the line needs besides what is allocated for it, and for this output where it is
    tracked), Full.
  Does: an allocation.
  Example: {"do":"allocate_build","day":"2030-01-02","build":1,"line":1,"item":1,"quantity":1}

auto_allocate
  Fields:
    build: a build
    substitutes: yes
    optional: yes
  Refused as NoSuch, WrongState (it is neither pending nor in production), Full.
  Does: what untracked lines lack is allocated from what is free, as above: for optional lines too
    where optional is said, and from substitutes too where substitutes is; an allocation for each
    amount that isn't 0.
  Example: {"do":"auto_allocate","day":"2030-01-02","build":1}

complete_build
  Fields:
    build: a build
  Refused as NoSuch, WrongState (it isn't in production), OpenOutputs (an item is at its output),
    Short (less is done than its quantity, or less is allocated than it needs of an untracked line
    that isn't optional), Full.
  Does: for each of its allocations, in order of number: less than the item has then is cut off
    first, as a new item; that, or the whole with its content, is used up. The allocations go and
    what was spent on it, and it is complete. A Cut where it was cut, and a Consumed for each node.
  Example: {"do":"complete_build","day":"2030-01-02","build":1}

consume
  Fields:
    allocation: a allocation
  Refused as NoSuch, WrongState (its build isn't in production), Mismatch (it is an order's, or
    names an output), Full.
  Does: less than the item has is cut off first, as a new item; that, or the whole with its content,
    is used up. The allocation goes, and so much more was spent on its line: in a row under the next
    number where there was none. A Cut where it was cut, and a Consumed for each node.
  Example: {"do":"consume","day":"2030-01-02","allocation":1}

release
  Fields:
    allocation: a allocation
  Refused as NoSuch.
  Does: the allocation goes.
  Example: {"do":"release","day":"2030-01-02","allocation":1}

flags
  template: Another part may name it as its template, and is a variant of it then.
  assembly: It has a bill, and may be built.
  component: It may stand on a bill, and as a substitute of a line.
  trackable: Its pieces may have serials, and a line of a bill with it is tracked.
  purchaseable: It may be ordered by a purchase.
  salable: It may be ordered by a sale.
  virtual: There is no stock of it: it is never found nor ordered, and stands on lines that are
    consumable alone.

refusals
  KeyTaken: Another request was done under this key. If this one is new, give it a new key. If you
    meant to send an old one again, send it as it was. A serial may say another piece by now: then
    say the piece by its number.
  NoSuch: A number, or a key, says no row of the kind that belongs in that field; or there is
    nothing to report of. Say the row by its name, with --names, or look its number up: invdesk
    export prints each table.
  BadNumber: A quantity is 0 or above 1,000,000,000, or items to merge are none or more than 100.
    Only a count may be 0. Mend the quantity, or merge in smaller groups.
  NameTaken: Another part has the name, or another category or location under the same parent. Use
    that one, or take another name.
  WrongFlag: A part's flags don't allow it: it is to be bought and isn't purchaseable, has serials
    and isn't trackable, is virtual and to be stocked. Use another part. Flags can't be changed:
    where they were wrong from the start, add a new part and retire the old one.
  Retired: The part is retired, and stays so. Use another part.
  WrongState: The order, the build or the item isn't in the state that this is for: an order isn't
    issued yet or is complete, a build is on hold, an item that is to come back isn't away. Issue
    the order or the build first. Where it is complete or cancelled, make a new one.
  Mismatch: The order is a purchase and a sale is asked for, or the other way round; the allocation
    to be consumed is an order's or an output's; or items to merge differ in part, batch or status,
    or one stands there twice. Say the right order, allocation or items.
  OpenOutputs: The build has an output that isn't finished. Complete, cancel or scrap each of its
    outputs first.
  InUse: An open build goes by this bill; or the line takes the part already, without a substitute.
    Complete or cancel the build first. A part that the line takes needs no substitute.
  Cycle: A part would be made of itself, by one step or many. Look at the report where_used of the
    assembly: it says which parts it goes into.
  SelfInside: The item would lie in itself, as what it is to go into lies in it. Say another item,
    or take the inner one out first.
  Unfit: No line of the bill takes this part in there, or the line that was named doesn't take it.
    Or it is for a build: a line whose component is trackable needs an output, and any other has
    none. Say the line that takes the part, with an output or without.
  NotLoose: The item isn't at a location by itself: it lies in another, was sent, was used or is off
    the books. Or what it is to go into isn't at a location. The report stock of its part says where
    it is. Take it out, return it or reinstate it first.
  Serialised: The item has a serial, and this is for items without. A piece with a serial is one
    piece: it isn't added to, split or merged, and is counted as 0 or 1.
  NotSerialised: The item has no serial, and this is for pieces with one; or outputs are begun
    without serials and have to have them. Give the item a serial by serialise, or send serials with
    the outputs.
  HasContent: Something lies in the item. Take it out by uninstall, or take the item apart by
    disassemble.
  Unavailable: The item's status isn't OK, Attention, Damaged or Returned. Take another item, or
    give this one the right status by set_status.
  Short: There is less than that; of what is to be split there has to be more. To ship, nothing is
    allocated; to close or complete, something is still missing. Look at stock of the part or
    shortage of the build, and allocate, receive or make the rest. A build has to make as many as it
    says.
  Allocated: Too much of the item is allocated to orders or builds. Take another item, or give an
    allocation up by release.
  OverNeed: The order's line or the build doesn't want as much any more. Mend the quantity. If more
    goods came than were ordered, add a line to the order for the rest.
  SerialCount: There are more or fewer serials than pieces. Count both again.
  SerialTaken: A serial stands twice in the list, or a piece of this part, of its template or of
    another variant has it. A piece that was sent, used or written off keeps its own. Read the
    serials again. The report stock shows which piece has which. One that is back is returned or
    reinstated.
  TooDeep: A chain of templates would have more than four parts, or items would lie in one another
    more than sixteen deep. Name a template further up, or put the item in further up.
  TooLarge: The item would have more than 1,000,000,000 pieces. Keep it as two items.
  Full: The numbers for rows, or for entries of the history, are used up: there are 10,000,000,000
    of each. Nothing new fits into these books. Keep them, and begin new ones in another file.

KeyTaken
  Another request was done under this key.
  If this one is new, give it a new key. If you meant to send an old one again, send it as it was. A
    serial may say another piece by now: then say the piece by its number.

NoSuch
  A number, or a key, says no row of the kind that belongs in that field; or there is nothing to
    report of.
  Say the row by its name, with --names, or look its number up: invdesk export prints each table.

BadNumber
  A quantity is 0 or above 1,000,000,000, or items to merge are none or more than 100. Only a count
    may be 0.
  Mend the quantity, or merge in smaller groups.

NameTaken
  Another part has the name, or another category or location under the same parent.
  Use that one, or take another name.

WrongFlag
  A part's flags don't allow it: it is to be bought and isn't purchaseable, has serials and isn't
    trackable, is virtual and to be stocked.
  Use another part. Flags can't be changed: where they were wrong from the start, add a new part and
    retire the old one.

Retired
  The part is retired, and stays so.
  Use another part.

WrongState
  The order, the build or the item isn't in the state that this is for: an order isn't issued yet or
    is complete, a build is on hold, an item that is to come back isn't away.
  Issue the order or the build first. Where it is complete or cancelled, make a new one.

Mismatch
  The order is a purchase and a sale is asked for, or the other way round; the allocation to be
    consumed is an order's or an output's; or items to merge differ in part, batch or status, or one
    stands there twice.
  Say the right order, allocation or items.

OpenOutputs
  The build has an output that isn't finished.
  Complete, cancel or scrap each of its outputs first.

InUse
  An open build goes by this bill; or the line takes the part already, without a substitute.
  Complete or cancel the build first. A part that the line takes needs no substitute.

Cycle
  A part would be made of itself, by one step or many.
  Look at the report where_used of the assembly: it says which parts it goes into.

SelfInside
  The item would lie in itself, as what it is to go into lies in it.
  Say another item, or take the inner one out first.

Unfit
  No line of the bill takes this part in there, or the line that was named doesn't take it. Or it is
    for a build: a line whose component is trackable needs an output, and any other has none.
  Say the line that takes the part, with an output or without.

NotLoose
  The item isn't at a location by itself: it lies in another, was sent, was used or is off the
    books. Or what it is to go into isn't at a location.
  The report stock of its part says where it is. Take it out, return it or reinstate it first.

Serialised
  The item has a serial, and this is for items without.
  A piece with a serial is one piece: it isn't added to, split or merged, and is counted as 0 or 1.

NotSerialised
  The item has no serial, and this is for pieces with one; or outputs are begun without serials and
    have to have them.
  Give the item a serial by serialise, or send serials with the outputs.

HasContent
  Something lies in the item.
  Take it out by uninstall, or take the item apart by disassemble.

Unavailable
  The item's status isn't OK, Attention, Damaged or Returned.
  Take another item, or give this one the right status by set_status.

Short
  There is less than that; of what is to be split there has to be more. To ship, nothing is
    allocated; to close or complete, something is still missing.
  Look at stock of the part or shortage of the build, and allocate, receive or make the rest. A
    build has to make as many as it says.

Allocated
  Too much of the item is allocated to orders or builds.
  Take another item, or give an allocation up by release.

OverNeed
  The order's line or the build doesn't want as much any more.
  Mend the quantity. If more goods came than were ordered, add a line to the order for the rest.

SerialCount
  There are more or fewer serials than pieces.
  Count both again.

SerialTaken
  A serial stands twice in the list, or a piece of this part, of its template or of another variant
    has it. A piece that was sent, used or written off keeps its own.
  Read the serials again. The report stock shows which piece has which. One that is back is returned
    or reinstated.

TooDeep
  A chain of templates would have more than four parts, or items would lie in one another more than
    sixteen deep.
  Name a template further up, or put the item in further up.

TooLarge
  The item would have more than 1,000,000,000 pieces.
  Keep it as two items.

Full
  The numbers for rows, or for entries of the history, are used up: there are 10,000,000,000 of
    each.
  Nothing new fits into these books. Keep them, and begin new ones in another file.

faults
  TooLong: The line has more than 65,536 bytes; or the file, or with run --check all lines together,
    more than 16,777,216. Send several requests, or cut the file up: its rows keep their numbers, if
    they have some. Where rows are known by their place, give each piece a document of its own. Send
    the lines in several runs, or without --check.
  NotJson: The line is no JSON, or not UTF-8; a number in it is too large for a double, as 1e400; a
    text has one half of a surrogate pair, as \ud800; or 128 arrays and objects stand in one
    another. Look for a quote, a comma or a brace that is missing, near the byte that --explain
    tells. Write a number with fewer digits, a character as itself and not as \u, and fewer braces
    in one another.
  NotObject: The line is JSON, but doesn't stand in braces. Write it as {"do":..}.
  NoField: A field is missing: do, day, or one that the command needs. In a file its cell is empty.
    Add it. docs/MACHINE.md has the fields of each command.
  WrongType: A field has something of another kind: a text where a number belongs, a number with a
    sign or a point, a name without --names. In a file it is a number that isn't written in digits.
    Write the field as its kind says in docs/MACHINE.md. To call rows by names, add --names.
  UnknownCommand: There is no such command as do says. Mend its name.
  UnknownField: The command, the report, or what says a row has no such field. Mend its name, or
    leave it out.
  BadKey: The key isn't 1 to 80 visible characters of ASCII. Take a shorter key, without spaces and
    accents.
  BadDay: The day isn't written as 2030-03-04, isn't in the calendar, or isn't in the years 2000 to
    2099. Mend the day.
  BadText: A name, a batch or a partner isn't 1 to 200 bytes, or has a tab or another control
    character in it. Shorten it, or take the character out.
  BadSerials: The serials can't be read: one is empty, has a wrong character or more than 24, a
    range doesn't rise, or there are more than 1,000. Write them as M1,M2 or 501-503, without
    spaces: letters of ASCII, digits, ., _, / and -.
  BadWord: There is no such status, side, flag or report; or a flag stands twice. Mend the word.
    Large and small letters differ: OK, but purchase.
  NoName: Nothing is called so. field says where the name stands. Mend the name, or make the row
    first. A shelf needs the way to it, as "Store / Shelf A" or ["Store","Shelf A"].
  Ambiguous: Several rows are called so, as the request of that key made several. Say a piece by its
    part and serial, or the row by its number.
  Csv: The record has more or fewer fields than the header, or isn't UTF-8. With --loose also: a
    quote in it is open at the end of the file, so that all records behind it are lost in it; or
    another separator stands in it than in the header. Look for a comma or a quote too many or too
    few. Save the file as UTF-8, with one separator throughout.
  Header: The first record isn't the header of this kind of file: of a command's, or with --loose,
    it lacks a column that is needed, or has one twice. A quote in it that nothing closes may hide
    columns. Write number,line,location,quantity,batch,serials for receipts, number,item,quantity
    for counts; for a command head each column as its field, or say how it is headed by --column.
    Save the file as UTF-8: of a command's that begins as UTF-16 does --explain says so.
  Changed: With --unchanged: the sheet says that there were so many, in its column expected or
    outstanding, and the books have another number now. Look what was done since (invdesk show
    history), and print the sheet again. Without --unchanged the file is run as it stands.

TooLong
  The line has more than 65,536 bytes; or the file, or with run --check all lines together, more
    than 16,777,216.
  Send several requests, or cut the file up: its rows keep their numbers, if they have some. Where
    rows are known by their place, give each piece a document of its own. Send the lines in several
    runs, or without --check.

NotJson
  The line is no JSON, or not UTF-8; a number in it is too large for a double, as 1e400; a text has
    one half of a surrogate pair, as \ud800; or 128 arrays and objects stand in one another.
  Look for a quote, a comma or a brace that is missing, near the byte that --explain tells. Write a
    number with fewer digits, a character as itself and not as \u, and fewer braces in one another.

NotObject
  The line is JSON, but doesn't stand in braces.
  Write it as {"do":..}.

NoField
  A field is missing: do, day, or one that the command needs. In a file its cell is empty.
  Add it. docs/MACHINE.md has the fields of each command.

WrongType
  A field has something of another kind: a text where a number belongs, a number with a sign or a
    point, a name without --names. In a file it is a number that isn't written in digits.
  Write the field as its kind says in docs/MACHINE.md. To call rows by names, add --names.

UnknownCommand
  There is no such command as do says.
  Mend its name.

UnknownField
  The command, the report, or what says a row has no such field.
  Mend its name, or leave it out.

BadKey
  The key isn't 1 to 80 visible characters of ASCII.
  Take a shorter key, without spaces and accents.

BadDay
  The day isn't written as 2030-03-04, isn't in the calendar, or isn't in the years 2000 to 2099.
  Mend the day.

BadText
  A name, a batch or a partner isn't 1 to 200 bytes, or has a tab or another control character in
    it.
  Shorten it, or take the character out.

BadSerials
  The serials can't be read: one is empty, has a wrong character or more than 24, a range doesn't
    rise, or there are more than 1,000.
  Write them as M1,M2 or 501-503, without spaces: letters of ASCII, digits, ., _, / and -.

BadWord
  There is no such status, side, flag or report; or a flag stands twice.
  Mend the word. Large and small letters differ: OK, but purchase.

NoName
  Nothing is called so. field says where the name stands.
  Mend the name, or make the row first. A shelf needs the way to it, as "Store / Shelf A" or
    ["Store","Shelf A"].

Ambiguous
  Several rows are called so, as the request of that key made several.
  Say a piece by its part and serial, or the row by its number.

Csv
  The record has more or fewer fields than the header, or isn't UTF-8. With --loose also: a quote in
    it is open at the end of the file, so that all records behind it are lost in it; or another
    separator stands in it than in the header.
  Look for a comma or a quote too many or too few. Save the file as UTF-8, with one separator
    throughout.

Header
  The first record isn't the header of this kind of file: of a command's, or with --loose, it lacks
    a column that is needed, or has one twice. A quote in it that nothing closes may hide columns.
  Write number,line,location,quantity,batch,serials for receipts, number,item,quantity for counts;
    for a command head each column as its field, or say how it is headed by --column. Save the file
    as UTF-8: of a command's that begins as UTF-16 does --explain says so.

Changed
  With --unchanged: the sheet says that there were so many, in its column expected or outstanding,
    and the books have another number now.
  Look what was done since (invdesk show history), and print the sheet again. Without --unchanged
    the file is run as it stands.

mistakes
  What is put right by which request. docs/MISTAKES.md says what stays then, with examples.
  add_category: It has a wrong name, or is under the wrong one. Make the right one for the parts to
    come.
  add_location: The same. Make the right one, and bring over what lies there by transfer.
  add_part: It has a wrong name, flag, category or template. Make a part of another name, and put
    that on the bills. Take the stock off the wrong one by remove, enter it for the right one by
    found, and retire the wrong one.
  retire_part: It was the wrong part. Make a part of another name. What there is of the old one may
    still be moved, counted and used, or be entered anew as above.
  add_line: A wrong component, quantity or flag. drop_line, and add it again. While a build goes by
    the bill it is InUse: complete or cancel that first.
  drop_line: It was the wrong line. Add it again, and its substitutes, under new keys.
  add_substitute: It was the wrong part, or the wrong line. drop_substitute
  drop_substitute: It was the wrong one. Add it again, under a new key.
  found: Too many. remove what is too much.
  found: The wrong part, batch or serial. remove all of it, and found as it is.
  found: The wrong location. transfer
  add: Too many. remove what is too much.
  remove: Too many, or of the wrong item. add them again; where none was left, found with the same
    batch; a piece with a serial by reinstate.
  count: A wrong number. count again, under another key, or in a file under another number.
  count: 0, and it is there. As after remove.
  transfer: Too many, or to the wrong place. transfer back; what was cut off a heap goes into it
    again by merge.
  split: Too many, or for nothing. merge
  merge: The wrong heaps. split
  serialise: A wrong serial. remove the piece, add one to the heap, and serialise again. If none of
    the heap is left, found with the serial.
  set_status: The wrong status, or of the wrong item. set_status again.
  install: The wrong piece, or into the wrong one. uninstall, and install the right one.
  uninstall: It is in there. install it again.
  disassemble: It was the wrong one. reinstate it, and install what was in it, piece by piece.
  reinstate: It isn't there. remove it; where something lies in it, count it as 0.
  order: The wrong partner or side. cancel_order, and make it again.
  order_line: Too few. Add a line for the rest.
  order_line: Too many, or the wrong part. Take what comes, and then cancel_order: what is left of
    it isn't expected any more.
  issue_order: Too early. Lines may still be added. Or cancel_order, and make it again.
  receive: Too many. remove what is too much. If it is still to come, add a line for that.
  receive: The wrong line, batch or serial. remove it, and receive it as it is, for the right line
    or for one that you add. Where goods of the wrong line are still to come, add a line for those,
    too.
  receive: The wrong location. transfer
  close_order: Something is still to come. A new order for that.
  cancel_order: It was the wrong one. A new order.
  allocate_sale: The wrong item, or too many. release, and allocate again.
  release: It was the wrong one. Allocate again.
  ship: The wrong piece, or it hasn't gone. return_item, and set_status as it was; what was cut off
    a heap may be merged with it again. For the right one add a line, and allocate and ship that.
  return_item: It is still with the customer. Add a line to the order, or make a new order, and
    allocate and ship it again.
  return_item: The wrong location. transfer
  build: The wrong part, or too many. cancel_build, and make it again. If something was used up
    already, see below.
  build: Too few. One more build for the rest.
  issue_build: Too early. hold_build
  hold_build: It goes on. issue_build
  cancel_build: It was the wrong one. A new build.
  outputs: Too many, or a wrong serial. cancel_output, and begin it again.
  cancel_output: It was the wrong one. outputs with the same serial, and allocate for it again.
  allocate_build: The wrong item, or too many. release, and allocate again.
  auto_allocate: It took the wrong ones. release those, and allocate_build the right ones.
  complete_output: Another piece is in it. uninstall the one and install the other.
  complete_output: It isn't finished. set_status Quarantined until it is.
  complete_output: The wrong location. transfer
  scrap_output: It was the wrong one. reinstate it, and install what is in it.
  consume: It wasn't used. add it to its heap, or found.
  complete_build: Other stock was used than was allocated. count both heaps."#;

/// The names of the commands.
pub const COMMANDS: [&str; 43] = [
    "add_category",
    "add_location",
    "add_part",
    "retire_part",
    "add_line",
    "drop_line",
    "add_substitute",
    "drop_substitute",
    "found",
    "add",
    "remove",
    "count",
    "transfer",
    "split",
    "merge",
    "serialise",
    "set_status",
    "install",
    "uninstall",
    "disassemble",
    "reinstate",
    "order",
    "order_line",
    "issue_order",
    "receive",
    "allocate_sale",
    "ship",
    "return_item",
    "close_order",
    "cancel_order",
    "build",
    "issue_build",
    "hold_build",
    "cancel_build",
    "outputs",
    "complete_output",
    "cancel_output",
    "scrap_output",
    "allocate_build",
    "auto_allocate",
    "release",
    "complete_build",
    "consume",
];

/// The names of the fields of commands and reports.
pub const FIELDS: [&str; 34] = [
    "do",
    "key",
    "day",
    "report",
    "of",
    "name",
    "parent",
    "category",
    "template",
    "flags",
    "part",
    "assembly",
    "component",
    "quantity",
    "optional",
    "consumable",
    "inherited",
    "variants",
    "line",
    "substitute",
    "location",
    "batch",
    "serials",
    "item",
    "into",
    "items",
    "status",
    "side",
    "partner",
    "order",
    "build",
    "output",
    "substitutes",
    "allocation",
];

/// The words that may stand in a field: flags, statuses, sides and reports.
pub const WORDS: [&str; 23] = [
    "template",
    "assembly",
    "component",
    "trackable",
    "purchaseable",
    "salable",
    "virtual",
    "OK",
    "Attention",
    "Damaged",
    "Destroyed",
    "Rejected",
    "Lost",
    "Quarantined",
    "Returned",
    "purchase",
    "sale",
    "ledger",
    "stock",
    "where_used",
    "history",
    "content",
    "shortage",
];
