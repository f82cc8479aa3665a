//! A purchase of screws and motors, and the file of their delivery, with the document and the day of an import.
use desk_wire::Document;
use part_core::Day;
use std::alloc::Global;
use std::test::Fail;

/// A purchase of screws and motors, and its answers.
pub const ORDERED: &str = r#"{"day":"2030-01-02","do":"add_location","name":"A"}
{"day":"2030-01-02","do":"add_part","flags":["component","purchaseable"],"name":"Screw"}
{"day":"2030-01-02","do":"add_part","flags":["component","purchaseable","trackable"],"name":"Motor"}
{"day":"2030-01-02","do":"order","partner":"Acme","side":"purchase"}
{"day":"2030-01-02","do":"order_line","order":4,"part":2,"quantity":500}
{"day":"2030-01-02","do":"order_line","order":4,"part":3,"quantity":2}
{"day":"2030-01-02","do":"issue_order","order":4}
"#;

pub const ORDERED_OUT: &str = r#"{"entries":0,"ids":[1]}
{"entries":0,"ids":[2]}
{"entries":0,"ids":[3]}
{"entries":0,"ids":[4]}
{"entries":0,"ids":[5]}
{"entries":0,"ids":[6]}
{"entries":0,"ids":[]}
"#;

/// Two lots of screws, and two motors with their serials; and what is told of it, each time that it is sent.
pub const DELIVERY: &str =
    "number,line,location,quantity,batch,serials\n1,5,1,100,L1,\n2,5,1,50,,\n3,6,1,2,,\"M1,M2\"\n";

pub const DELIVERY_OUT: &str =
    "1\t{\"entries\":1,\"ids\":[7]}\n2\t{\"entries\":1,\"ids\":[8]}\n3\t{\"entries\":2,\"ids\":[9,10]}\n";

/// The delivery with another quantity in its first row, and what it is told once the delivery was imported.
pub const OTHER: &str =
    "number,line,location,quantity,batch,serials\n1,5,1,101,L1,\n2,5,1,50,,\n3,6,1,2,,\"M1,M2\"\n";

pub const OTHER_OUT: &str =
    "1\t{\"refused\":\"KeyTaken\"}\n2\t{\"entries\":1,\"ids\":[8]}\n3\t{\"entries\":2,\"ids\":[9,10]}\n";

/// The stock of screws after the delivery.
pub const STOCK: &str = "{\"of\":2,\"report\":\"stock\"}\n";

pub const STOCK_OUT: &str =
    "{\"report\":[[\"7\",\"100\",\"OK\",\"at 1\",\"L1\",\"\"],[\"8\",\"50\",\"OK\",\"at 1\",\"\",\"\"]]}\n";

/// The document that files are imported as.
pub fn document(alloc: Global) -> Result<Document, Fail> {
    match Document::new(String::from_str(alloc, "D1")?) {
        Some(document) => Ok(document),
        None => Err(Fail::from("it is a document")),
    }
}

/// The day of that text.
pub fn day(text: &str) -> Result<Day, Fail> {
    match Day::parse(text) {
        Some(day) => Ok(day),
        None => Err(Fail::from("it is a day")),
    }
}
