//! Requests on books with nothing in them, one on a line, behind what comes of it: the numbers that are drawn, `-`
//! where none is, or the refusal. The day of all is the same, and isn't written here.

/// On categories, locations, parts and bills.
pub const PARTS: &str = r#"1 {"do":"add_location","name":"A"}
NoSuch {"do":"add_location","name":"B","parent":9}
NameTaken {"do":"add_location","name":"A"}
2 {"do":"add_category","name":"Metal"}
NoSuch {"do":"add_category","name":"Steel","parent":1}
NameTaken {"do":"add_category","name":"Metal"}
3 {"do":"add_part","flags":["component"],"name":"Screw"}
4 {"do":"add_part","flags":["assembly"],"name":"Robot"}
5 {"do":"add_part","flags":["assembly","component"],"name":"Frame"}
6 {"do":"add_part","flags":["template","component"],"name":"Old"}
7 {"do":"add_part","flags":["template","component"],"name":"Bolt"}
8 {"do":"add_part","flags":["template","component"],"name":"Bolt M","template":7}
9 {"do":"add_part","flags":["template","component"],"name":"Bolt M4","template":8}
10 {"do":"add_part","flags":["template","component"],"name":"Bolt M4 10","template":9}
NoSuch {"do":"add_part","flags":[],"name":"Nut","template":2}
NameTaken {"do":"add_part","flags":[],"name":"Screw"}
WrongFlag {"do":"add_part","flags":[],"name":"Nut","template":3}
- {"do":"retire_part","part":6}
Retired {"do":"add_part","flags":[],"name":"Nut","template":6}
TooDeep {"do":"add_part","flags":[],"name":"Nut","template":10}
NoSuch {"do":"retire_part","part":1}
Retired {"do":"retire_part","part":6}
11 {"do":"add_line","assembly":4,"component":3,"quantity":4}
12 {"do":"add_line","assembly":5,"component":3,"quantity":2}
NoSuch {"do":"add_line","assembly":4,"component":1,"quantity":1}
BadNumber {"do":"add_line","assembly":4,"component":7,"quantity":0}
WrongFlag {"do":"add_line","assembly":3,"component":7,"quantity":1}
Retired {"do":"add_line","assembly":4,"component":6,"quantity":1}
Cycle {"do":"add_line","assembly":5,"component":5,"quantity":1}
13 {"do":"add_substitute","line":11,"part":7}
NoSuch {"do":"add_substitute","line":13,"part":8}
WrongFlag {"do":"add_substitute","line":11,"part":4}
Retired {"do":"add_substitute","line":11,"part":6}
InUse {"do":"add_substitute","line":11,"part":7}
Cycle {"do":"add_substitute","line":12,"part":5}
NoSuch {"do":"drop_substitute","substitute":11}
NoSuch {"do":"drop_line","line":13}
14 {"do":"build","part":4,"quantity":1}
InUse {"do":"add_line","assembly":4,"component":7,"quantity":1}
InUse {"do":"drop_substitute","substitute":13}
InUse {"do":"drop_line","line":11}
- {"do":"cancel_build","build":14}
- {"do":"drop_substitute","substitute":13}
- {"do":"drop_line","line":11}
"#;

/// On stock: Acme has ordered of it, so that some is allocated.
pub const STOCK: &str = r#"1 {"do":"add_location","name":"A"}
2 {"do":"add_part","flags":["component","salable"],"name":"Screw"}
3 {"do":"add_part","flags":["component","trackable","salable"],"name":"Motor"}
4 {"do":"add_part","flags":["assembly","component","trackable","salable"],"name":"Robot"}
5 {"do":"add_part","flags":["virtual"],"name":"Fee"}
6 {"do":"add_part","flags":["component"],"name":"Old"}
- {"do":"retire_part","part":6}
7 {"do":"add_line","assembly":4,"component":3,"quantity":2}
8 {"do":"found","location":1,"part":2,"quantity":100}
9,10 {"do":"found","location":1,"part":3,"quantity":2,"serials":"M1,M2"}
11 {"do":"found","location":1,"part":4,"quantity":1,"serials":"R1"}
12 {"do":"found","batch":"L1","location":1,"part":3,"quantity":10}
13 {"do":"found","location":1,"part":2,"quantity":1000000000}
14 {"do":"found","location":1,"part":4,"quantity":5}
15 {"do":"found","location":1,"part":4,"quantity":1,"serials":"R2"}
NoSuch {"do":"found","location":1,"part":1,"quantity":1}
BadNumber {"do":"found","location":1,"part":2,"quantity":0}
WrongFlag {"do":"found","location":1,"part":5,"quantity":1}
Retired {"do":"found","location":1,"part":6,"quantity":1}
SerialCount {"do":"found","location":1,"part":3,"quantity":2,"serials":"M3"}
SerialTaken {"do":"found","location":1,"part":3,"quantity":1,"serials":"M1"}
16 {"do":"order","partner":"Acme","side":"sale"}
17 {"do":"order_line","order":16,"part":2,"quantity":50}
18 {"do":"order_line","order":16,"part":3,"quantity":5}
19 {"do":"order_line","order":16,"part":4,"quantity":5}
- {"do":"issue_order","order":16}
20 {"do":"allocate_sale","item":8,"line":17,"quantity":50}
21 {"do":"allocate_sale","item":12,"line":18,"quantity":5}
22 {"do":"allocate_sale","item":15,"line":19,"quantity":1}
- {"do":"install","item":9,"parent":11,"quantity":1}
NoSuch {"do":"install","item":9,"parent":1,"quantity":1}
BadNumber {"do":"install","item":10,"parent":11,"quantity":0}
SelfInside {"do":"install","item":11,"parent":9,"quantity":1}
Unfit {"do":"install","item":8,"parent":11,"quantity":1}
NotLoose {"do":"install","item":9,"parent":11,"quantity":1}
NotSerialised {"do":"install","item":10,"parent":14,"quantity":1}
Short {"do":"install","item":12,"parent":11,"quantity":11}
Allocated {"do":"install","item":12,"parent":11,"quantity":6}
- {"do":"set_status","item":10,"status":"Lost"}
NoSuch {"do":"set_status","item":1,"status":"Lost"}
NotLoose {"do":"set_status","item":9,"status":"Lost"}
Allocated {"do":"set_status","item":12,"status":"Lost"}
Unavailable {"do":"install","item":10,"parent":11,"quantity":1}
- {"do":"add","item":8,"quantity":5}
NoSuch {"do":"add","item":1,"quantity":5}
BadNumber {"do":"add","item":8,"quantity":0}
NotLoose {"do":"add","item":9,"quantity":1}
Serialised {"do":"add","item":10,"quantity":1}
TooLarge {"do":"add","item":13,"quantity":1}
- {"do":"remove","item":8,"quantity":5}
NoSuch {"do":"remove","item":1,"quantity":5}
BadNumber {"do":"remove","item":8,"quantity":0}
NotLoose {"do":"remove","item":9,"quantity":1}
HasContent {"do":"remove","item":11,"quantity":1}
Short {"do":"remove","item":8,"quantity":101}
Allocated {"do":"remove","item":8,"quantity":51}
- {"do":"count","item":8,"quantity":99}
NoSuch {"do":"count","item":1,"quantity":5}
BadNumber {"do":"count","item":8,"quantity":1000000001}
NotLoose {"do":"count","item":9,"quantity":1}
Serialised {"do":"count","item":10,"quantity":2}
Allocated {"do":"count","item":8,"quantity":49}
23 {"do":"transfer","item":8,"location":1,"quantity":9}
NoSuch {"do":"transfer","item":8,"location":2,"quantity":9}
BadNumber {"do":"transfer","item":8,"location":1,"quantity":0}
NotLoose {"do":"transfer","item":9,"location":1,"quantity":1}
Short {"do":"transfer","item":8,"location":1,"quantity":91}
Allocated {"do":"transfer","item":8,"location":1,"quantity":41}
24 {"do":"split","item":8,"quantity":10}
NoSuch {"do":"split","item":1,"quantity":10}
BadNumber {"do":"split","item":8,"quantity":0}
NotLoose {"do":"split","item":9,"quantity":1}
Serialised {"do":"split","item":10,"quantity":1}
Short {"do":"split","item":8,"quantity":80}
Allocated {"do":"split","item":8,"quantity":31}
- {"do":"merge","into":8,"items":[23,24]}
NoSuch {"do":"merge","into":8,"items":[1]}
BadNumber {"do":"merge","into":8,"items":[]}
Mismatch {"do":"merge","into":8,"items":[12]}
NotLoose {"do":"merge","into":8,"items":[23]}
25,26 {"do":"found","location":1,"part":3,"quantity":2,"serials":"M3,M4"}
Serialised {"do":"merge","into":25,"items":[26]}
27 {"do":"found","location":1,"part":2,"quantity":2}
Allocated {"do":"merge","into":27,"items":[8]}
TooLarge {"do":"merge","into":13,"items":[27]}
28,29 {"do":"serialise","item":12,"quantity":2,"serials":"M5,M6"}
NoSuch {"do":"serialise","item":1,"quantity":1,"serials":"M7"}
BadNumber {"do":"serialise","item":12,"quantity":0,"serials":"M7"}
WrongFlag {"do":"serialise","item":8,"quantity":1,"serials":"M7"}
NotLoose {"do":"serialise","item":9,"quantity":1,"serials":"M7"}
Serialised {"do":"serialise","item":25,"quantity":1,"serials":"M7"}
Short {"do":"serialise","item":12,"quantity":9,"serials":"M7"}
Allocated {"do":"serialise","item":12,"quantity":4,"serials":"M7"}
SerialCount {"do":"serialise","item":12,"quantity":2,"serials":"M7"}
SerialTaken {"do":"serialise","item":12,"quantity":1,"serials":"M6"}
- {"do":"uninstall","item":9,"location":1}
NoSuch {"do":"uninstall","item":9,"location":2}
WrongState {"do":"uninstall","item":9,"location":1}
- {"do":"install","item":9,"parent":11,"quantity":1}
30 {"do":"found","location":1,"part":4,"quantity":1,"serials":"R3"}
- {"do":"install","item":25,"parent":30,"quantity":1}
- {"do":"count","item":30,"quantity":0}
NotLoose {"do":"uninstall","item":25,"location":1}
NoSuch {"do":"reinstate","item":30,"location":2}
WrongState {"do":"reinstate","item":8,"location":1}
- {"do":"reinstate","item":30,"location":1}
- {"do":"disassemble","item":30,"location":1}
NoSuch {"do":"disassemble","item":1,"location":1}
NotLoose {"do":"disassemble","item":9,"location":1}
NotSerialised {"do":"disassemble","item":8,"location":1}
Allocated {"do":"disassemble","item":15,"location":1}
"#;

/// On purchases and sales.
pub const ORDERS: &str = r#"1 {"do":"add_location","name":"A"}
2 {"do":"add_part","flags":["component","purchaseable"],"name":"Screw"}
3 {"do":"add_part","flags":["component","trackable","purchaseable","salable"],"name":"Motor"}
4 {"do":"add_part","flags":["component","purchaseable","salable"],"name":"Old"}
5 {"do":"order","partner":"Acme","side":"purchase"}
6 {"do":"order","partner":"Best","side":"sale"}
7 {"do":"order_line","order":5,"part":2,"quantity":100}
8 {"do":"order_line","order":5,"part":3,"quantity":2}
9 {"do":"order_line","order":6,"part":3,"quantity":3}
- {"do":"retire_part","part":4}
NoSuch {"do":"order_line","order":1,"part":2,"quantity":1}
BadNumber {"do":"order_line","order":5,"part":2,"quantity":0}
WrongFlag {"do":"order_line","order":6,"part":2,"quantity":1}
Retired {"do":"order_line","order":6,"part":4,"quantity":1}
WrongState {"do":"receive","line":7,"location":1,"quantity":1}
WrongState {"do":"ship","order":6}
WrongState {"do":"close_order","order":6}
- {"do":"issue_order","order":5}
- {"do":"issue_order","order":6}
NoSuch {"do":"issue_order","order":1}
WrongState {"do":"issue_order","order":5}
10 {"do":"receive","batch":"L1","line":7,"location":1,"quantity":40}
NoSuch {"do":"receive","line":1,"location":1,"quantity":1}
BadNumber {"do":"receive","line":7,"location":1,"quantity":0}
WrongFlag {"do":"receive","line":7,"location":1,"quantity":1,"serials":"S1"}
Mismatch {"do":"receive","line":9,"location":1,"quantity":1}
OverNeed {"do":"receive","line":7,"location":1,"quantity":61}
11 {"do":"receive","line":8,"location":1,"quantity":1,"serials":"M1"}
SerialCount {"do":"receive","line":8,"location":1,"quantity":1,"serials":"M2,M3"}
SerialTaken {"do":"receive","line":8,"location":1,"quantity":1,"serials":"M1"}
12 {"do":"found","location":1,"part":3,"quantity":5}
13 {"do":"found","location":1,"part":3,"quantity":5}
- {"do":"set_status","item":13,"status":"Rejected"}
14 {"do":"found","location":1,"part":3,"quantity":1}
- {"do":"remove","item":14,"quantity":1}
15 {"do":"order","partner":"Cole","side":"sale"}
16 {"do":"order_line","order":15,"part":3,"quantity":4}
WrongState {"do":"allocate_sale","item":12,"line":16,"quantity":1}
- {"do":"issue_order","order":15}
Short {"do":"ship","order":6}
17 {"do":"allocate_sale","item":12,"line":16,"quantity":4}
NoSuch {"do":"allocate_sale","item":12,"line":1,"quantity":1}
BadNumber {"do":"allocate_sale","item":12,"line":9,"quantity":0}
Mismatch {"do":"allocate_sale","item":10,"line":7,"quantity":1}
Unfit {"do":"allocate_sale","item":10,"line":9,"quantity":1}
NotLoose {"do":"allocate_sale","item":14,"line":9,"quantity":1}
Unavailable {"do":"allocate_sale","item":13,"line":9,"quantity":1}
Allocated {"do":"allocate_sale","item":12,"line":9,"quantity":2}
OverNeed {"do":"allocate_sale","item":12,"line":16,"quantity":1}
NoSuch {"do":"ship","order":1}
Mismatch {"do":"ship","order":5}
18 {"do":"allocate_sale","item":11,"line":9,"quantity":1}
NoSuch {"do":"release","allocation":1}
- {"do":"release","allocation":18}
19 {"do":"allocate_sale","item":11,"line":9,"quantity":1}
20 {"do":"ship","order":15}
- {"do":"ship","order":6}
NoSuch {"do":"return_item","item":1,"location":1}
WrongState {"do":"return_item","item":12,"location":1}
- {"do":"return_item","item":11,"location":1}
NoSuch {"do":"close_order","order":1}
Short {"do":"close_order","order":6}
- {"do":"close_order","order":15}
NoSuch {"do":"cancel_order","order":1}
WrongState {"do":"cancel_order","order":15}
- {"do":"cancel_order","order":6}
WrongState {"do":"order_line","order":6,"part":3,"quantity":1}
21 {"do":"receive","key":"k1","line":7,"location":1,"quantity":1}
21 {"do":"receive","key":"k1","line":7,"location":1,"quantity":1}
KeyTaken {"do":"receive","key":"k1","line":7,"location":1,"quantity":2}
"#;

/// On builds: of robots, with an output for each, and of a frame.
pub const BUILDS: &str = r#"1 {"do":"add_location","name":"A"}
2 {"do":"add_part","flags":["component","salable"],"name":"Screw"}
3 {"do":"add_part","flags":["component","trackable"],"name":"Motor"}
4 {"do":"add_part","flags":["assembly","trackable"],"name":"Robot"}
5 {"do":"add_part","flags":["assembly"],"name":"Frame"}
6 {"do":"add_part","flags":["assembly"],"name":"Old"}
7 {"do":"add_line","assembly":4,"component":2,"quantity":4}
8 {"do":"add_line","assembly":4,"component":3,"quantity":1}
9 {"do":"add_line","assembly":5,"component":2,"quantity":2}
10 {"do":"found","location":1,"part":2,"quantity":20}
11,12,13 {"do":"found","location":1,"part":3,"quantity":3,"serials":"M1,M2,M3"}
14 {"do":"found","location":1,"part":2,"quantity":5}
- {"do":"set_status","item":14,"status":"Lost"}
15 {"do":"found","location":1,"part":2,"quantity":5}
- {"do":"remove","item":15,"quantity":5}
- {"do":"retire_part","part":6}
16 {"do":"build","part":4,"quantity":3}
NoSuch {"do":"build","part":1,"quantity":1}
BadNumber {"do":"build","part":4,"quantity":0}
WrongFlag {"do":"build","part":2,"quantity":1}
Retired {"do":"build","part":6,"quantity":1}
WrongState {"do":"outputs","build":16,"quantity":1,"serials":"R1"}
- {"do":"issue_build","build":16}
NoSuch {"do":"issue_build","build":1}
WrongState {"do":"issue_build","build":16}
17,18 {"do":"outputs","build":16,"quantity":2,"serials":"R1,R2"}
NoSuch {"do":"outputs","build":1,"quantity":1}
BadNumber {"do":"outputs","build":16,"quantity":0}
NotSerialised {"do":"outputs","build":16,"quantity":1}
OverNeed {"do":"outputs","build":16,"quantity":2,"serials":"R3,R4"}
SerialCount {"do":"outputs","build":16,"quantity":1,"serials":"R3,R4"}
SerialTaken {"do":"outputs","build":16,"quantity":1,"serials":"R1"}
19 {"do":"allocate_build","build":16,"item":11,"line":8,"output":17,"quantity":1}
20 {"do":"allocate_build","build":16,"item":10,"line":7,"quantity":8}
NoSuch {"do":"allocate_build","build":1,"item":10,"line":7,"quantity":1}
BadNumber {"do":"allocate_build","build":16,"item":10,"line":7,"quantity":0}
WrongState {"do":"allocate_build","build":16,"item":12,"line":8,"output":12,"quantity":1}
Unfit {"do":"allocate_build","build":16,"item":12,"line":8,"quantity":1}
NotLoose {"do":"allocate_build","build":16,"item":15,"line":7,"quantity":1}
Unavailable {"do":"allocate_build","build":16,"item":14,"line":7,"quantity":1}
Allocated {"do":"allocate_build","build":16,"item":10,"line":7,"quantity":13}
OverNeed {"do":"allocate_build","build":16,"item":10,"line":7,"quantity":5}
NoSuch {"do":"auto_allocate","build":1}
21 {"do":"auto_allocate","build":16}
NoSuch {"do":"complete_output","location":1,"output":1}
Short {"do":"complete_output","location":1,"output":18}
- {"do":"complete_output","location":1,"output":17}
WrongState {"do":"complete_output","location":1,"output":17}
NoSuch {"do":"cancel_output","output":1}
WrongState {"do":"cancel_output","output":17}
- {"do":"cancel_output","output":18}
22 {"do":"outputs","build":16,"quantity":1,"serials":"R2"}
NoSuch {"do":"scrap_output","output":1}
WrongState {"do":"scrap_output","output":17}
- {"do":"scrap_output","output":22}
23 {"do":"build","part":5,"quantity":1}
24 {"do":"allocate_build","build":23,"item":10,"line":9,"quantity":1}
NoSuch {"do":"consume","allocation":1}
WrongState {"do":"consume","allocation":24}
NoSuch {"do":"complete_build","build":1}
WrongState {"do":"complete_build","build":23}
- {"do":"issue_build","build":23}
25,26 {"do":"consume","allocation":24}
27 {"do":"outputs","build":23,"quantity":1}
WrongFlag {"do":"outputs","build":23,"quantity":1,"serials":"F1"}
28 {"do":"order","partner":"Acme","side":"sale"}
29 {"do":"order_line","order":28,"part":2,"quantity":1}
- {"do":"issue_order","order":28}
30 {"do":"allocate_sale","item":10,"line":29,"quantity":1}
Mismatch {"do":"consume","allocation":30}
OpenOutputs {"do":"complete_build","build":23}
- {"do":"complete_output","location":1,"output":27}
Short {"do":"complete_build","build":23}
31 {"do":"allocate_build","build":23,"item":10,"line":9,"quantity":1}
32 {"do":"complete_build","build":23}
- {"do":"hold_build","build":16}
NoSuch {"do":"hold_build","build":1}
WrongState {"do":"hold_build","build":16}
WrongState {"do":"auto_allocate","build":16}
- {"do":"cancel_build","build":16}
NoSuch {"do":"cancel_build","build":1}
WrongState {"do":"cancel_build","build":16}
"#;

/// In a tower of items, and of a build that would go above it. Parts 2 to 18, which go each into the one before by
/// lines 19 to 34, are items 35 to 51, of which all but the last lie each in the one before.
pub const TOWER: &str = r#"TooDeep {"do":"install","item":51,"parent":50,"quantity":1}
52 {"do":"add_part","flags":["assembly","trackable"],"name":"Base"}
53 {"do":"add_line","assembly":52,"component":2,"quantity":1}
54 {"do":"build","part":52,"quantity":1}
- {"do":"issue_build","build":54}
55 {"do":"outputs","build":54,"quantity":1,"serials":"B1"}
56 {"do":"allocate_build","build":54,"item":35,"line":53,"output":55,"quantity":1}
TooDeep {"do":"complete_output","location":1,"output":55}
"#;

/// Each command, and for what it is refused besides KeyTaken, which any may be, and Full.
pub const REFUSALS: &[(&str, &str)] = &[
    ("add_category", "NoSuch NameTaken"),
    ("add_location", "NoSuch NameTaken"),
    ("add_part", "NoSuch NameTaken WrongFlag Retired TooDeep"),
    ("retire_part", "NoSuch Retired"),
    ("add_line", "NoSuch BadNumber WrongFlag Retired InUse Cycle"),
    ("drop_line", "NoSuch InUse"),
    ("add_substitute", "NoSuch WrongFlag Retired InUse Cycle"),
    ("drop_substitute", "NoSuch InUse"),
    (
        "found",
        "NoSuch BadNumber WrongFlag Retired SerialCount SerialTaken",
    ),
    ("add", "NoSuch BadNumber NotLoose Serialised TooLarge"),
    (
        "remove",
        "NoSuch BadNumber NotLoose HasContent Short Allocated",
    ),
    ("count", "NoSuch BadNumber NotLoose Serialised Allocated"),
    ("transfer", "NoSuch BadNumber NotLoose Short Allocated"),
    (
        "split",
        "NoSuch BadNumber NotLoose Serialised Short Allocated",
    ),
    (
        "merge",
        "NoSuch BadNumber Mismatch NotLoose Serialised Allocated TooLarge",
    ),
    (
        "serialise",
        "NoSuch BadNumber WrongFlag NotLoose Serialised Short Allocated SerialCount SerialTaken",
    ),
    ("set_status", "NoSuch NotLoose Allocated"),
    (
        "install",
        "NoSuch BadNumber SelfInside Unfit NotLoose NotSerialised Unavailable Short Allocated TooDeep",
    ),
    ("uninstall", "NoSuch WrongState NotLoose"),
    ("disassemble", "NoSuch NotLoose NotSerialised Allocated"),
    ("reinstate", "NoSuch WrongState"),
    ("order", ""),
    (
        "order_line",
        "NoSuch BadNumber WrongFlag Retired WrongState",
    ),
    ("issue_order", "NoSuch WrongState"),
    (
        "receive",
        "NoSuch BadNumber WrongFlag WrongState Mismatch OverNeed SerialCount SerialTaken",
    ),
    (
        "allocate_sale",
        "NoSuch BadNumber WrongState Mismatch Unfit NotLoose Unavailable Allocated OverNeed",
    ),
    ("ship", "NoSuch WrongState Mismatch Short"),
    ("return_item", "NoSuch WrongState"),
    ("close_order", "NoSuch WrongState Short"),
    ("cancel_order", "NoSuch WrongState"),
    ("build", "NoSuch BadNumber WrongFlag Retired"),
    ("issue_build", "NoSuch WrongState"),
    ("hold_build", "NoSuch WrongState"),
    ("cancel_build", "NoSuch WrongState"),
    (
        "outputs",
        "NoSuch BadNumber WrongFlag WrongState NotSerialised OverNeed SerialCount SerialTaken",
    ),
    ("complete_output", "NoSuch WrongState Short TooDeep"),
    ("cancel_output", "NoSuch WrongState"),
    ("scrap_output", "NoSuch WrongState"),
    (
        "allocate_build",
        "NoSuch BadNumber WrongState Unfit NotLoose Unavailable Allocated OverNeed",
    ),
    ("auto_allocate", "NoSuch WrongState"),
    ("release", "NoSuch"),
    ("complete_build", "NoSuch WrongState OpenOutputs Short"),
    ("consume", "NoSuch WrongState Mismatch"),
];
