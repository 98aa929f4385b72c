//! A document, its canonical text, and that text read again.
use set_canonical::canonical;
use set_laws::{
    canonical_is_kept, canonical_is_read, canonical_tells_apart, document_has_canonical,
};
use set_read::read_set;
use std::test::Fail;

const DOCUMENT: &[u8] =
    b"{\"plugin\":\"GSN-EDF\",\"clusters\":[{\"cpus\":2}],\"tasks\":[{\"name\":\"A\",\"cost\":1,\"period\":10,\"deadline\":5},{\"name\":\"B\",\"cost\":1,\"period\":10,\"deadline\":7},{\"name\":\"C\",\"cost\":1,\"period\":10,\"deadline\":9}],\"steps\":[[0,0,\"tick\"],[0,0,\"irq\"],[0,0,\"irq\"]]}";

const CANONICAL: &[u8] =
    b"{\"clusters\":[{\"cpus\":2,\"group\":0}],\"plugin\":\"GSN-EDF\",\"resvs\":[],\"sems\":[],\"steps\":[[0,0,\"tick\"],[0,0,\"irq\"],[0,0,\"irq\"]],\"tasks\":[{\"body\":[],\"cluster\":0,\"cost\":1,\"deadline\":5,\"enforce\":false,\"kind\":\"periodic\",\"name\":\"A\",\"period\":10,\"phase\":0,\"prio\":511,\"resv\":null,\"uses\":[]},{\"body\":[],\"cluster\":0,\"cost\":1,\"deadline\":7,\"enforce\":false,\"kind\":\"periodic\",\"name\":\"B\",\"period\":10,\"phase\":0,\"prio\":511,\"resv\":null,\"uses\":[]},{\"body\":[],\"cluster\":0,\"cost\":1,\"deadline\":9,\"enforce\":false,\"kind\":\"periodic\",\"name\":\"C\",\"period\":10,\"phase\":0,\"prio\":511,\"resv\":null,\"uses\":[]}]}";

#[test]
fn canonical_text_is_read(rt: HostRuntime) -> Result<(), Fail> {
    let alloc = rt.alloc();
    for document in [DOCUMENT, CANONICAL] {
        let setup = read_set(alloc, document)?;
        let text = canonical(alloc, &setup)?;
        assert_eq!(rt; text.as_slice(), CANONICAL);
        canonical_is_read(&setup);
        canonical_is_kept(&setup);
    }
    document_has_canonical(DOCUMENT);
    canonical_tells_apart(DOCUMENT, CANONICAL);
    Ok(())
}
