//! Data sources, as they are read.
ghost use Rattle.object_terms.specs.Form.{map_with};
ghost use Rattle.object_terms.specs.DataSource.{data_source, data_source_body};

use object_fields::{
    DescriptionForm, Free, ReadForm, TextForm, close_with, fail_at, map_entries, optional, required,
};
use object_terms::keys::{CONNECTION_DETAILS, DESCRIPTION, TYPE};
use object_terms::{Body, DataSource, Objects, ReadError, Rule};
use yaml_terms::Node;

/// The `spec` of a data source.
struct DataSourceForm;

impl ReadForm for DataSourceForm {
    type Value = DataSource;

    ghost form = { λ _. map_with data_source };

    #[tactic(auto, unfolding(object_terms::specs::DataSource::data_source))]
    fn read(&self, found: &mut Objects, key: &str, node: &Node) -> Result<DataSource, ReadError> {
        let Some(fields) = map_entries(node) else {
            return fail_at(found, key, Rule::NotMap);
        };
        let description = optional(found, fields, DESCRIPTION, &DescriptionForm)?;
        let type_text = match required(found, fields, TYPE, &TextForm) {
            Ok(type_text) => type_text,
            Err(error) => {
                drop(description);
                return Err(error);
            }
        };
        let connection_details = match optional(found, fields, CONNECTION_DETAILS, &Free) {
            Ok(connection_details) => connection_details,
            Err(error) => {
                drop(description);
                drop(type_text);
                return Err(error);
            }
        };
        let source = DataSource {
            description,
            type_text,
            connection_details,
        };
        close_with(
            found,
            fields,
            &[DESCRIPTION, TYPE, CONNECTION_DETAILS],
            source,
        )
    }
}

/// The body of a data source.
pub(crate) struct DataSourceBody;

impl ReadForm for DataSourceBody {
    type Value = Body;

    ghost form = { λ _. data_source_body };

    fn read(&self, found: &mut Objects, key: &str, node: &Node) -> Result<Body, ReadError> {
        match DataSourceForm.read(found, key, node) {
            Ok(source) => Ok(Body::DataSource(source)),
            Err(error) => Err(error),
        }
    }
}
